// Both runs of what was read, printed.
ghost use Rattle.std.specs.Prelude.{◌≡◌, ◌+◌, ◌*◌, ◌≤◌, length};
ghost use Rattle.program.specs.Answer.{check_answer};
ghost use Rattle.single.specs.Runs.{told as told_single};
ghost use Rattle.joint.specs.Runs.{told as told_joint};
ghost use Rattle.cases.specs.Placed.{Placed};
ghost use Rattle.rehearsal.specs.Both.{parties_of, filled, single_printed, joint_printed, shown_case, shown};
ghost use Rattle.printing.specs.Shown.{single_said, joint_said, max_records, most_of_one};
ghost use Rattle.rehearsal.specs.Spaces.{Filled, Holds, Exact, Rows, PutsAtMost};

use cases::layout::Layout;
use cases::lending::Lending;
use printing::lines::{JointLine, SingleLine};
use refusals::Refused;

// The parties of a good program, or 0, as the printed lines' definitions have it.
fn parties_of(program: &[u8]) -> u8
    ensures { result ≡ parties_of (check_answer program.now) }
{
    match program::check::check(program) {
        Ok(good) => good.parties,
        Err(_) => 0,
    }
}

// What is lent to a run is filled first.
fn fill(records: &mut [u8], lengths: &mut [usize], work: &mut [u8])
    ensures { Filled records.old lengths.old work.old records.new lengths.new work.new }
{
    records.fill(0xaa);
    lengths.fill(7);
    work.fill(0x55);
}

// The line of a single run's answer: a refusal is told by its number.
fn single_line(answer: Result<single::runs::Answer, Refused>) -> SingleLine
    ensures { single_said result ≡ told_single answer }
{
    match answer {
        Ok(single::runs::Answer::Stopped(refusal, node, steps)) => {
            SingleLine::Stopped(u8::from(refusal), node, steps)
        }
        Ok(single::runs::Answer::Ended(steps)) => SingleLine::Ended(steps),
        Ok(single::runs::Answer::Budget(steps)) => SingleLine::Budget(steps),
        Err(refused) => SingleLine::Refused(u8::from(refused.refusal), refused.place),
    }
}

// The line of a joint run's answer.
fn joint_line(answer: Result<joint::runs::Answer, Refused>) -> JointLine
    ensures { joint_said result ≡ told_joint answer }
{
    match answer {
        Ok(joint::runs::Answer::Complete(turns)) => JointLine::Complete(turns),
        Ok(joint::runs::Answer::Open(turns)) => JointLine::Open(turns),
        Err(refused) => JointLine::Refused(u8::from(refused.refusal), refused.place),
    }
}

// The lines of the single run, in all that is lent.
fn show_single(
    program: &[u8],
    counts: &[usize],
    inputs: &[i32],
    budget: u32,
    records: &mut [u8],
    lengths: &mut [usize],
    work: &mut [u8],
    out: &mut [u8],
    at: usize,
) -> usize
    requires { (length records.old ≤ max_records) × (at + most_of_one ≤ length out.old) }
    ensures { PutsAtMost most_of_one (single_printed (filled program.now counts.now inputs.now (length records.old) (length lengths.old) (length work.old)) budget) at result out.old out.new }
{
    fill(records, lengths, work);
    let answer = single::runs::run(program, counts, inputs, budget, records, lengths, work);
    let line = single_line(answer);
    printing::lines::put_single(line, parties_of(program), records, lengths, out, at)
}

// The lines of the joint run, in all that is lent.
fn show_joint(
    program: &[u8],
    counts: &[usize],
    inputs: &[i32],
    turns: &[u8],
    records: &mut [u8],
    lengths: &mut [usize],
    work: &mut [u8],
    out: &mut [u8],
    at: usize,
) -> usize
    requires { (length records.old ≤ max_records) × (at + most_of_one ≤ length out.old) }
    ensures { PutsAtMost most_of_one (joint_printed (filled program.now counts.now inputs.now (length records.old) (length lengths.old) (length work.old)) turns.now) at result out.old out.new }
{
    fill(records, lengths, work);
    let answer = joint::runs::run(program, counts, inputs, turns, records, lengths, work);
    let line = joint_line(answer);
    printing::lines::put_joint(line, parties_of(program), records, lengths, out, at)
}

// The lines of both runs, one after the other: each is lent so many of the working bytes.
fn show_both(
    program: &[u8],
    counts: &[usize],
    inputs: &[i32],
    budget: u32,
    turns: &[u8],
    lending: Lending,
    records: &mut [u8],
    lengths: &mut [usize],
    work: &mut [u8],
    out: &mut [u8],
    at: usize,
) -> usize
    requires { Exact lending records.old lengths.old × Holds lending records.old lengths.old work.old out.old at }
    ensures { PutsAtMost (2 * most_of_one) (shown_case lending (record { program = program.now; counts = counts.now; inputs = inputs.now; budget = budget; turns = turns.now })) at result out.old out.new }
{
    let single = lending.single;
    let joint = lending.joint;
    let end = show_single(
        program,
        counts,
        inputs,
        budget,
        records,
        lengths,
        &mut work[..single],
        out,
        at,
    );
    show_joint(
        program,
        counts,
        inputs,
        turns,
        records,
        lengths,
        &mut work[..joint],
        out,
        end,
    )
}

// A good input, by where its fields stand; the counts and the inputs are read first.
fn show_case(
    text: &[u8],
    layout: Layout,
    lending: Lending,
    counts: &mut [usize],
    inputs: &mut [i32],
    records: &mut [u8],
    lengths: &mut [usize],
    work: &mut [u8],
    out: &mut [u8],
    at: usize,
) -> usize
    requires { Placed text.now layout × Rows layout counts.old inputs.old × Exact lending records.old lengths.old × Holds lending records.old lengths.old work.old out.old at }
    ensures { PutsAtMost (2 * most_of_one) (shown lending text.now) at result out.old out.new }
{
    let counts_at = layout.counts;
    cases::rows::load_counts(text, counts_at, counts);
    let inputs_at = layout.inputs;
    cases::rows::load_inputs(text, inputs_at, inputs);
    let budget = words::load4(text, layout.budget);
    let end = layout.end;
    let turns = layout.turns;
    show_both(
        &text[2..end],
        counts,
        inputs,
        budget,
        &text[turns..],
        lending,
        records,
        lengths,
        work,
        out,
        at,
    )
}

// What is printed, with places for the counts and the inputs of any input.
fn show_text(
    text: &[u8],
    lending: Lending,
    counts: &mut [usize],
    inputs: &mut [i32],
    records: &mut [u8],
    lengths: &mut [usize],
    work: &mut [u8],
    out: &mut [u8],
    at: usize,
) -> usize
    requires { (255 ≤ length counts.old) × (2048 ≤ length inputs.old) × Exact lending records.old lengths.old × Holds lending records.old lengths.old work.old out.old at }
    ensures { PutsAtMost (2 * most_of_one) (shown lending text.now) at result out.old out.new }
{
    let Some(layout) = cases::layout::parse(text) else {
        return text::plain::put(out, at, b"bad input\n");
    };
    show_case(
        text,
        layout,
        lending,
        &mut counts[..layout.k],
        &mut inputs[..layout.total],
        records,
        lengths,
        work,
        out,
        at,
    )
}

// What is printed for the input `text` under a lending, put at a place of `out`; its end there. The records, lengths and working bytes are lent to the runs.
pub fn rehearse(
    text: &[u8],
    lending: Lending,
    records: &mut [u8],
    lengths: &mut [usize],
    work: &mut [u8],
    out: &mut [u8],
    at: usize,
) -> usize
    requires { Holds lending records.old lengths.old work.old out.old at }
    ensures { PutsAtMost (2 * most_of_one) (shown lending text.now) at result out.old out.new }
{
    let mut counts = [0usize; 255];
    let mut inputs = [0i32; 2048];
    let record_bytes = lending.records;
    let places = lending.lengths;
    show_text(
        text,
        lending,
        &mut counts,
        &mut inputs,
        &mut records[..record_bytes],
        &mut lengths[..places],
        work,
        out,
        at,
    )
}
