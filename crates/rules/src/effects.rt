// What a rule asks to be done. A rule only looks; whoever asked it then moves, writes or meets.
use limits::{Name, Party};
use parties::sets::PartySet;
use refusals::Refusal;
use values::value::Value;

// Who takes the step: all of the mode at once, or one site on its own slice.
#[derive(Clone, Copy)]
pub enum View {
    Whole,
    Site(Party),
}

// Where control goes.
#[derive(Clone, Copy)]
pub enum Move {
    // a value is handed back
    Hand(Value),
    // LET: x, e1, e2
    Down(Name, u16, u16),
    Goto(u16),
    // PAR: the new mode, and e
    Enter(PartySet, u16),
    // CALL: f, and the value of name 0
    Call(u16, Value),
}

// What all of a mode do at once.
#[derive(Clone, Copy)]
pub enum Meeting {
    // a, q
    Sharing(Party, PartySet),
    // q
    Revealing(PartySet),
}

// What one brings to a meeting. Not an Option: it stands in one, where None says that a member is away.
#[derive(Clone, Copy)]
pub enum Offer {
    Empty,
    // a number, and the set of those who have to bring it
    Secret(i32, PartySet),
}

#[derive(Clone, Copy)]
pub enum Effect {
    Refuse(Refusal),
    Goes(Move),
    // the next input is read
    Reads,
    Writes(i32),
    Meets(Meeting, Offer),
}
