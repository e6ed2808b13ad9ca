// The single run.
ghost use Rattle.std.specs.Prelude.{◌≡◌, ◌*◌, ◌≤◌, length};
ghost use Rattle.limits.specs.Limits.{max_parties};
ghost use Rattle.program.specs.Answer.{accepted, check_answer};
ghost use Rattle.rules.specs.Lent.{sum};
ghost use Rattle.area.specs.Rows.{row_size};
ghost use Rattle.rules.specs.Calls.{single_call};
ghost use Rattle.single.specs.Runs.{RunsOn, Drives, Is};

use area::stand::{AREA, ROW, Stand};
use inputs::counts_fit;
use limits::Depth;
use parties::sets::PartySet;
use records::events::Event;
use refusals::{Refusal, Refused};
use single_step::Stepped;

#[derive(Clone, Copy)]
pub enum Answer {
    // the refusal, the node, and the steps taken before
    Stopped(Refusal, u16, u32),
    // the steps
    Ended(u32),
    Budget(u32),
}

// At most `budget` steps, from the stand `start`.
fn run_on(
    program: &[u8],
    nodes: usize,
    start: Stand,
    budget: u32,
    n: u8,
    room: usize,
    inputs: &[i32],
    at: &mut [usize],
    end: &[usize],
    bytes: &mut [u8],
    lengths: &mut [usize],
    work: &mut [u8],
) -> Answer
    requires { (n ≤ max_parties) × (n * room ≤ length bytes.old) × (n ≤ length lengths.old) × (length work.old ≡ row_size) × (max_parties ≤ length at.old) × (max_parties ≤ length end.now) × (nodes ≤ 1024) }
    ensures { RunsOn program.now nodes room n inputs.now end.now budget start result (record { bytes = bytes.old; lengths = lengths.old; work = work.old; at = at.old }) bytes.new lengths.new }
{
    let mut t = start;
    let mut k: u32 = 0;
    // by strides, of several steps
    while k < budget {
        let stride = single_step::step(
            program,
            nodes,
            t,
            budget - k,
            n,
            room,
            inputs,
            at,
            end,
            bytes,
            lengths,
            work,
        );
        let came = stride.came;
        k += stride.moves;
        match came {
            Stepped::On(next) => {
                t = next;
            }
            Stepped::Ended => {
                return Answer::Ended(k + 1);
            }
            Stepped::Stopped(refusal) => {
                return Answer::Stopped(refusal, stride.node, k);
            }
        }
        k += 1;
    }
    Answer::Budget(k)
}

// The run of a good program, from its root in the mode of all parties.
fn drive(
    program: &[u8],
    n: u8,
    nodes: u16,
    room: usize,
    counts: &[usize],
    inputs: &[i32],
    budget: u32,
    bytes: &mut [u8],
    lengths: &mut [usize],
    work: &mut [u8],
) -> Answer
    requires { (n ≤ max_parties) × (1 ≤ nodes) × (nodes ≤ 1024) × (n * room ≤ length bytes.old) × (n ≤ length lengths.old) × (length work.old ≡ row_size) × (length counts.now ≡ n) × (sum counts.now ≡ length inputs.now) }
    ensures { Drives program.now n nodes room counts.now inputs.now budget result bytes.old lengths.old bytes.new lengths.new }
{
    let mut at = [0usize; 16];
    let mut end = [0usize; 16];
    inputs::divide(counts, inputs, &mut at, &mut end);
    ledger::entries::clear_lengths(n, lengths);
    let many = nodes as usize;
    table::prepare(program, many, work);
    let start = Stand {
        node: nodes - 1,
        mode: PartySet::all(n),
        depth: Depth { frames: 0 },
    };
    run_on(
        program, many, start, budget, n, room, inputs, &mut at, &end, bytes, lengths, work,
    )
}

// A good program's call: refusals 2 and 4, or the run, after which all of the working area is zero.
#[tactic(auto, using(crate::proofs::CallLaws::short_by_room))]
fn run_good(
    program: &[u8],
    n: u8,
    nodes: u16,
    counts: &[usize],
    inputs: &[i32],
    budget: u32,
    bytes: &mut [u8],
    lengths: &mut [usize],
    work: &mut [u8],
) -> Result<Answer, Refused>
    requires { check_answer program.now ≡ accepted n nodes }
    ensures { Is (single_call (record { program = program.now; counts = counts.now; inputs = inputs.now; records = bytes.old; lengths = lengths.old; work = work.old }) budget) result bytes.new lengths.new work.new }
{
    if counts_fit(counts, n, inputs.len()) {
        let parties = n as usize;
        let room = bytes.len() / parties;
        if room < Event::MAX {
            return Err(Refusal::TooLittleLent.at(0));
        }
        if lengths.len() < parties {
            return Err(Refusal::TooLittleLent.at(0));
        }
        if work.len() < AREA {
            return Err(Refusal::TooLittleLent.at(0));
        }
        let answer = drive(
            program,
            n,
            nodes,
            room,
            counts,
            inputs,
            budget,
            bytes,
            lengths,
            &mut work[..ROW],
        );
        stretches::zero(work);
        return Ok(answer);
    }
    Err(Refusal::BadCounts.at(0))
}

// The single run of a program. `bytes` are the records, side by side. A refused call changes nothing that was lent.
pub fn run(
    program: &[u8],
    counts: &[usize],
    inputs: &[i32],
    budget: u32,
    bytes: &mut [u8],
    lengths: &mut [usize],
    work: &mut [u8],
) -> Result<Answer, Refused>
    ensures { Is (single_call (record { program = program.now; counts = counts.now; inputs = inputs.now; records = bytes.old; lengths = lengths.old; work = work.old }) budget) result bytes.new lengths.new work.new }
{
    let good = program::check::check(program)?;
    run_good(
        program,
        good.parties,
        good.nodes,
        counts,
        inputs,
        budget,
        bytes,
        lengths,
        work,
    )
}
