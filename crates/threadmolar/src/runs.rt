// The single run and the joint run.
ghost use Rattle.rules.specs.Calls.{single_call, joint_call};
ghost use Rattle.single.specs.Runs.{told as told_single};
ghost use Rattle.joint.specs.Runs.{told as told_joint};
ghost use Rattle.threadmolar.specs.Runs.{SingleFits, SingleTold, SingleRuns, JointFits, JointTold, JointRuns};

use crate::answers::{BUDGET, COMPLETE, ENDED, OPEN, numbered};
use refusals::Refused;

// The number of the single run's answer, with the steps put in their place. The joint run comes out in other ways: a trait over both
// would be longer than the two functions.
fn tell_single(answer: Result<single::runs::Answer, Refused>, steps: &mut u32) -> u32
    requires { SingleFits (told_single answer) }
    ensures { SingleTold (told_single answer) result steps.old steps.new }
{
    let ran = match answer {
        Ok(ran) => ran,
        Err(refused) => return numbered(u8::from(refused.refusal), refused.place as u16),
    };
    match ran {
        single::runs::Answer::Stopped(refusal, node, taken) => {
            *steps = taken;
            numbered(u8::from(refusal), node)
        }
        single::runs::Answer::Ended(taken) => {
            *steps = taken;
            ENDED
        }
        single::runs::Answer::Budget(taken) => {
            *steps = taken;
            BUDGET
        }
    }
}

#[unsafe(no_mangle)]
pub extern "C" fn threadmolar_single(
    program: &[u8],
    counts: &[usize],
    inputs: &[i32],
    budget: u32,
    records: &mut [u8],
    lengths: &mut [usize],
    work: &mut [u8],
    steps: &mut u32,
) -> u32
    ensures { SingleRuns (single_call (record { program = program.now; counts = counts.now; inputs = inputs.now; records = records.old; lengths = lengths.old; work = work.old }) budget) result records.new lengths.new work.new steps.old steps.new }
{
    let answer = single::runs::run(program, counts, inputs, budget, records, lengths, work);
    tell_single(answer, steps)
}

// The number of the joint run's answer, with the turns taken put in their place.
fn tell_joint(answer: Result<joint::runs::Answer, Refused>, taken: &mut u32) -> u32
    requires { JointFits (told_joint answer) }
    ensures { JointTold (told_joint answer) result taken.old taken.new }
{
    let ran = match answer {
        Ok(ran) => ran,
        Err(refused) => return numbered(u8::from(refused.refusal), refused.place as u16),
    };
    match ran {
        joint::runs::Answer::Complete(turns) => {
            *taken = turns;
            COMPLETE
        }
        joint::runs::Answer::Open(turns) => {
            *taken = turns;
            OPEN
        }
    }
}

#[unsafe(no_mangle)]
pub extern "C" fn threadmolar_joint(
    program: &[u8],
    counts: &[usize],
    inputs: &[i32],
    turns: &[u8],
    records: &mut [u8],
    lengths: &mut [usize],
    work: &mut [u8],
    taken: &mut u32,
) -> u32
    ensures { JointRuns (joint_call (record { program = program.now; counts = counts.now; inputs = inputs.now; records = records.old; lengths = lengths.old; work = work.old }) turns.now) result records.new lengths.new work.new taken.old taken.new }
{
    let answer = joint::runs::run(program, counts, inputs, turns, records, lengths, work);
    tell_joint(answer, taken)
}
