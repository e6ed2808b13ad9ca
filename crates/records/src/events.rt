// The events of a record, with their fields as document 01's table has them; writing one under the room test.
ghost use Rattle.std.specs.Prelude.{◌≡◌, ◌∷◌, ◌+◌, ◌≤◌, length};
ghost use Rattle.std.proofs.lemmas.List.Edits.{sets};
ghost use Rattle.words.specs.Words.{integer_bytes};
ghost use Rattle.parties.specs.SetBytes.{set_bytes};
ghost use Rattle.records.specs.Events.{event_bytes, finished, held_back, fits_after, has_room};
ghost use Rattle.records.specs.Append.{Appends, Closes};

use limits::Party;
use parties::sets::PartySet;
use values::value::Value;

#[derive(Clone, Copy)]
pub enum Event {
    Read(i32),
    Wrote(i32),
    // a, q
    Shared(Party, PartySet),
    // a reveal, at a site in q
    Opened(PartySet, i32),
    // a reveal, at a site outside q
    Passed(PartySet),
    // tag, integer, l, h
    Finished(u8, i32, PartySet, PartySet),
    // refusal, node; a number, since a walk finds any byte there
    Stopped(u8, u16),
}

impl Event {
    // The bytes held back for the last event, and the most that an event takes.
    pub const MAX: usize = 10;

    // How many bytes the event takes, its kind among them.
    pub fn size(self) -> usize
        ensures { result ≡ length (event_bytes self) }
    {
        match self {
            Event::Read(_) => 5,
            Event::Wrote(_) => 5,
            Event::Shared(_, _) => 4,
            Event::Opened(_, _) => 7,
            Event::Passed(_) => 3,
            Event::Finished(_, _, _, _) => 10,
            Event::Stopped(_, _) => 4,
        }
    }

    pub fn store(self, s: &mut [u8], at: usize)
        requires { at + length (event_bytes self) ≤ length s.old }
        ensures { s.new ≡ sets s.old at (event_bytes self) }
    {
        match self {
            Event::Read(i) => store_byte_and_integer(s, at, 1, i),
            Event::Wrote(i) => store_byte_and_integer(s, at, 2, i),
            Event::Shared(a, q) => store_shared(s, at, a, q),
            Event::Opened(q, i) => store_opened(s, at, q, i),
            Event::Passed(q) => store_byte_and_set(s, at, 5, q),
            Event::Finished(tag, i, l, h) => store_finished(s, at, tag, i, l, h),
            Event::Stopped(refusal, node) => store_stopped(s, at, refusal, node),
        }
    }

    // After the `used` bytes of a record with so much room, enough is left for an event of that size and for the last one.
    pub fn fits(size: usize, room: usize, used: usize) -> bool
        requires { size ≤ held_back }
        ensures { result ≡ fits_after room used size }
    {
        if room < used {
            return false;
        }
        size + Event::MAX <= room - used
    }

    // The same of this event.
    pub fn has_room(self, room: usize, used: usize) -> bool
        ensures { result ≡ has_room room used self }
    {
        Event::fits(self.size(), room, used)
    }

    // Writes the event after the `used` bytes of the record s, where it has room. Answers how many bytes are then used.
    pub fn append(self, s: &mut [u8], used: usize) -> Option<usize>
        ensures { Appends self used s.old result s.new }
    {
        if self.has_room(s.len(), used) {
            self.store(s, used);
            return Some(used + self.size());
        }
        None
    }

    // Writes the last event after the `used` bytes of a record, in what was held back for it. Answers how many bytes are then used.
    pub fn close(self, bytes: &mut [u8], used: usize) -> usize
        ensures { Closes self used bytes.old result bytes.new }
    {
        if bytes.len() < used {
            return used;
        }
        if bytes.len() - used < Event::MAX {
            return used;
        }
        self.store(bytes, used);
        used + self.size()
    }

    // The last event of a site that finished with v. A share's number is not shown.
    pub fn finished(v: Value) -> Event
        ensures { result ≡ finished v }
    {
        let none = PartySet { bits: 0 };
        match v {
            Value::Nothing => Event::Finished(0, 0, none, none),
            Value::Clear(i, l) => Event::Finished(1, i, l, none),
            Value::Share(_, h, l) => Event::Finished(2, 0, l, h),
        }
    }
}

fn store_byte_and_integer(s: &mut [u8], at: usize, b: u8, i: i32)
    requires { at + 5 ≤ length s.old }
    ensures { s.new ≡ sets s.old at (b ∷ integer_bytes i) }
{
    s[at] = b;
    words::store_integer(s, at + 1, i);
}

fn store_byte_and_set(s: &mut [u8], at: usize, b: u8, q: PartySet)
    requires { at + 3 ≤ length s.old }
    ensures { s.new ≡ sets s.old at (b ∷ set_bytes q) }
{
    s[at] = b;
    parties::bytes::store_set(s, at + 1, q);
}

fn store_shared(s: &mut [u8], at: usize, a: Party, q: PartySet)
    requires { at + 4 ≤ length s.old }
    ensures { s.new ≡ sets s.old at (event_bytes (Event.Shared a q)) }
{
    s[at] = 3;
    store_byte_and_set(s, at + 1, a.index, q);
}

fn store_opened(s: &mut [u8], at: usize, q: PartySet, i: i32)
    requires { at + 7 ≤ length s.old }
    ensures { s.new ≡ sets s.old at (event_bytes (Event.Opened q i)) }
{
    store_byte_and_set(s, at, 4, q);
    words::store_integer(s, at + 3, i);
}

fn store_finished(s: &mut [u8], at: usize, tag: u8, i: i32, l: PartySet, h: PartySet)
    requires { at + 10 ≤ length s.old }
    ensures { s.new ≡ sets s.old at (event_bytes (Event.Finished tag i l h)) }
{
    s[at] = 6;
    store_byte_and_integer(s, at + 1, tag, i);
    parties::bytes::store_set(s, at + 6, l);
    parties::bytes::store_set(s, at + 8, h);
}

fn store_stopped(s: &mut [u8], at: usize, refusal: u8, node: u16)
    requires { at + 4 ≤ length s.old }
    ensures { s.new ≡ sets s.old at (event_bytes (Event.Stopped refusal node)) }
{
    s[at] = 7;
    s[at + 1] = refusal;
    words::store2(s, at + 2, node);
}
