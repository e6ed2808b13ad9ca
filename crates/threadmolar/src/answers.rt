// The answers that are no refusal. Below 64 an answer is a refusal's number.
ghost use Rattle.std.specs.Prelude.{◌≡◌};
ghost use Rattle.threadmolar.specs.Answers.{numbered};

pub const GOOD: u32 = 64;

pub const ENDED: u32 = 65;

pub const BUDGET: u32 = 66;

pub const COMPLETE: u32 = 67;

pub const OPEN: u32 = 68;

pub const EVENT: u32 = 69;

pub const END: u32 = 70;

pub const FIRST_LONGER: u32 = 71;

pub const SECOND_LONGER: u32 = 72;

pub const EQUAL: u32 = 73;

pub const NEITHER: u32 = 74;

// A refusal and its place, or a stop and its node, in one number.
pub fn numbered(number: u8, place: u16) -> u32
    ensures { result ≡ numbered number place }
{
    number as u32 + 256 * (place as u32)
}
