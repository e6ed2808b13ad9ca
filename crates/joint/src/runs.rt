// The joint run.
ghost use Rattle.std.specs.Prelude.{◌≡◌, ◌*◌, ◌≤◌, length};
ghost use Rattle.limits.specs.Limits.{max_parties};
ghost use Rattle.program.specs.Answer.{accepted, check_answer};
ghost use Rattle.rules.specs.Lent.{sum};
ghost use Rattle.area.specs.Rows.{row_size};
ghost use Rattle.rules.specs.Calls.{max_turns, bad_turn_from, joint_call};
ghost use Rattle.std.proofs.Math.Option.{none};
ghost use Rattle.turn_steps.specs.Steps.{once};
ghost use Rattle.joint.specs.Runs.{AllBelow, RunsTurns, Drives, Is};

use advance::strides::strides;
use area::stand::{AREA, Stand};
use inputs::counts_fit;
use limits::Depth;
use parties::sets::PartySet;
use records::events::Event;
use refusals::{Refusal, Refused};

#[derive(Clone, Copy)]
pub enum Answer {
    // the turns at which a site stepped or stopped
    Complete(u32),
    Open(u32),
}

// Whether a turn counts, as a number.
fn once(counts: bool) -> u32
    ensures { (result ≡ once counts) × (result ≤ 1) }
{
    if counts { 1 } else { 0 }
}

// All turns of the list: strides of moves, and what is left to do of the turn after each. How many turns count.
#[tactic(auto, using(crate::proofs::TurnLaws::going_none, crate::proofs::TurnLaws::rows_fit))]
fn run_turns(
    program: &[u8],
    nodes: usize,
    turns: &[u8],
    n: u8,
    room: usize,
    inputs: &[i32],
    at: &mut [usize],
    end: &[usize],
    bytes: &mut [u8],
    lengths: &mut [usize],
    work: &mut [u8],
) -> u32
    requires { (length turns.now ≤ max_turns) × AllBelow n turns.now × (n ≤ max_parties) × (n * room ≤ length bytes.old) × (n ≤ length lengths.old) × (n * row_size ≤ length work.old) × (max_parties ≤ length at.old) × (max_parties ≤ length end.now) × (nodes ≤ 1024) }
    ensures { RunsTurns program.now nodes turns.now n room inputs.now end.now result at.old bytes.old lengths.old work.old bytes.new lengths.new work.new }
{
    let nowhere = Stand {
        node: 0,
        mode: PartySet { bits: 0 },
        depth: Depth { frames: 0 },
    };
    let mut count: u32 = 0;
    let mut j = 0;
    // by strides, of several turns
    while j < turns.len() {
        let most = (turns.len() - j) as u32;
        let strode = strides(true, turns, j, program, nodes, nowhere, most, work);
        let came = strode.came;
        j += strode.moves as usize;
        let p = turns[j];
        let counts = sites::turn(
            program, nodes, came, p, n, room, inputs, at, end, bytes, lengths, work,
        );
        count += strode.moves + once(counts);
        j += 1;
    }
    count
}

// The run of a good program over a good turn list.
fn drive(
    program: &[u8],
    n: u8,
    nodes: u16,
    room: usize,
    counts: &[usize],
    inputs: &[i32],
    turns: &[u8],
    bytes: &mut [u8],
    lengths: &mut [usize],
    work: &mut [u8],
) -> Answer
    requires { (n ≤ max_parties) × (1 ≤ nodes) × (nodes ≤ 1024) × (n * room ≤ length bytes.old) × (n ≤ length lengths.old) × (n * row_size ≤ length work.old) × (length counts.now ≡ n) × (sum counts.now ≡ length inputs.now) × (bad_turn_from n 0 turns.now ≡ none) }
    ensures { Drives program.now n nodes room counts.now inputs.now turns.now result bytes.old lengths.old bytes.new lengths.new }
{
    let mut at = [0usize; 16];
    let mut end = [0usize; 16];
    inputs::divide(counts, inputs, &mut at, &mut end);
    ledger::entries::clear_lengths(n, lengths);
    let many = nodes as usize;
    let start = Stand {
        node: nodes - 1,
        mode: PartySet::all(n),
        depth: Depth { frames: 0 },
    };
    ends::open_all(program, many, start, n, work);
    let count = run_turns(
        program, many, turns, n, room, inputs, &mut at, &end, bytes, lengths, work,
    );
    if ends::all_finished(n, work) {
        Answer::Complete(count)
    } else {
        Answer::Open(count)
    }
}

// The run where enough was lent for it, else refusal 4. After the run all of the working area is zero.
#[tactic(auto, using(crate::proofs::CallLaws::short_by_room))]
fn run_lent(
    program: &[u8],
    n: u8,
    nodes: u16,
    counts: &[usize],
    inputs: &[i32],
    turns: &[u8],
    bytes: &mut [u8],
    lengths: &mut [usize],
    work: &mut [u8],
) -> Result<Answer, Refused>
    requires { (check_answer program.now ≡ accepted n nodes) × (length counts.now ≡ n) × (sum counts.now ≡ length inputs.now) × (bad_turn_from n 0 turns.now ≡ none) }
    ensures { Is (joint_call (record { program = program.now; counts = counts.now; inputs = inputs.now; records = bytes.old; lengths = lengths.old; work = work.old }) turns.now) result bytes.new lengths.new work.new }
{
    let parties = n as usize;
    let room = bytes.len() / parties;
    if room < Event::MAX {
        return Err(Refusal::TooLittleLent.at(0));
    }
    if lengths.len() < parties {
        return Err(Refusal::TooLittleLent.at(0));
    }
    if work.len() < parties * AREA {
        return Err(Refusal::TooLittleLent.at(0));
    }
    let answer = drive(
        program, n, nodes, room, counts, inputs, turns, bytes, lengths, work,
    );
    stretches::zero(work);
    Ok(answer)
}

// A good program's call: refusals 2 and 3, or what follows them.
fn run_good(
    program: &[u8],
    n: u8,
    nodes: u16,
    counts: &[usize],
    inputs: &[i32],
    turns: &[u8],
    bytes: &mut [u8],
    lengths: &mut [usize],
    work: &mut [u8],
) -> Result<Answer, Refused>
    requires { check_answer program.now ≡ accepted n nodes }
    ensures { Is (joint_call (record { program = program.now; counts = counts.now; inputs = inputs.now; records = bytes.old; lengths = lengths.old; work = work.old }) turns.now) result bytes.new lengths.new work.new }
{
    if !counts_fit(counts, n, inputs.len()) {
        return Err(Refusal::BadCounts.at(0));
    }
    if let Some(index) = ends::bad_turn(turns, n) {
        return Err(Refusal::BadTurn.at(index));
    }
    run_lent(
        program, n, nodes, counts, inputs, turns, bytes, lengths, work,
    )
}

// The joint run of a program over a turn list. `bytes` are the records, side by side. A refused call changes nothing that was lent.
pub fn run(
    program: &[u8],
    counts: &[usize],
    inputs: &[i32],
    turns: &[u8],
    bytes: &mut [u8],
    lengths: &mut [usize],
    work: &mut [u8],
) -> Result<Answer, Refused>
    ensures { Is (joint_call (record { program = program.now; counts = counts.now; inputs = inputs.now; records = bytes.old; lengths = lengths.old; work = work.old }) turns.now) result bytes.new lengths.new work.new }
{
    let good = program::check::check(program)?;
    run_good(
        program,
        good.parties,
        good.nodes,
        counts,
        inputs,
        turns,
        bytes,
        lengths,
        work,
    )
}
