// The check of a program.
ghost use Rattle.program.specs.Answer.{check_answer};
ghost use Rattle.threadmolar.specs.Checks.{Checks};

use crate::answers::{GOOD, numbered};
use refusals::Refusal;

#[unsafe(no_mangle)]
pub extern "C" fn threadmolar_check(program: &[u8], parties: &mut u8, nodes: &mut usize) -> u32
    ensures { Checks (check_answer program.now) result parties.old nodes.old parties.new nodes.new }
{
    match program::check::check(program) {
        Err(bad) => numbered(u8::from(Refusal::BadProgram), bad.place as u16),
        Ok(good) => {
            *parties = good.parties;
            *nodes = good.nodes as usize;
            GOOD
        }
    }
}
