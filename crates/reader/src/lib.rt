// The reader of a record keeps the bytes and a position together: a struct that holds the lent slice. Each function over it takes it apart
// and leaves the work to a function on the slice and the number.
#![tactic(auto)]

ghost use Rattle.std.specs.Prelude.{◌≡◌};
ghost use Rattle.walk.specs.Walk.{told, step_answer};
ghost use Rattle.reader.specs.Next.{place_after};

use walk::{Cursor, Step};

#[derive(Clone, Copy)]
pub struct Reader<'a> {
    pub bytes: &'a [u8],
    pub at: usize,
}

// What stands at a place of a record.
fn step_at(bytes: &[u8], at: usize) -> Step
    ensures { told result ≡ step_answer bytes.now at }
{
    let here = Cursor { at };
    here.step(bytes)
}

// The place after the event at a place; the same place where no event is.
fn place_after(bytes: &[u8], at: usize) -> usize
    ensures { result ≡ place_after bytes.now at }
{
    match step_at(bytes, at) {
        Step::Event(_, next) => next.at,
        Step::End => at,
        Step::Bad(_) => at,
    }
}

impl<'a> Reader<'a> {
    // At the start of a record.
    pub fn new(bytes: &'a [u8]) -> Reader<'a>
        ensures { (result.bytes ≡ bytes.entry) × (result.at ≡ 0) }
    {
        Reader { bytes, at: 0 }
    }

    // The next event and the place of what follows, or the end, or refusal 12 with the byte.
    pub fn event(self) -> Step
        ensures { told result ≡ step_answer self.entry.bytes.now self.entry.at }
    {
        step_at(self.bytes, self.at)
    }

    // The reader of the same record, past the event. Where no event is, it stays.
    pub fn moved_on(self) -> Reader<'a>
        ensures { (result.bytes ≡ self.entry.bytes) × (result.at ≡ place_after self.entry.bytes.now self.entry.at) }
    {
        let next = place_after(self.bytes, self.at);
        Reader {
            bytes: self.bytes,
            at: next,
        }
    }
}

// For who has the bytes and a place: a reader is made there, and reads.
pub fn event_at(bytes: &[u8], at: usize) -> Step
    ensures { told result ≡ step_answer bytes.now at }
{
    Reader { bytes, at }.event()
}
