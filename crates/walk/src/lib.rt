// A record is walked event by event, by a cursor that goes by value, with the record's bytes passed.
#![tactic(auto)]

ghost use Rattle.std.specs.Prelude.{◌≡◌, ◌+◌, ◌≤◌, length, drop};
ghost use Rattle.walk.specs.Walk.{body_width, width_of, event_from, told, step_answer};

use limits::Party;
use records::events::Event;

// The length of the body, which the kind byte fixes, or `None` where the byte is no kind.
pub fn width_of(kind: u8) -> Option<usize>
    ensures { result ≡ width_of kind }
{
    match kind {
        1..=2 => Some(4),
        3 => Some(3),
        4 => Some(6),
        5 => Some(2),
        6 => Some(9),
        7 => Some(3),
        _ => None,
    }
}

// A place of a record.
#[derive(Clone, Copy)]
pub struct Cursor {
    pub at: usize,
}

#[derive(Clone, Copy)]
pub enum Step {
    // an event, and what follows
    Event(Event, Cursor),
    End,
    // refusal 12: the byte of the event that is cut or unknown
    Bad(usize),
}

impl Cursor {
    pub fn new() -> Cursor
        ensures { result.at ≡ 0 }
    {
        Cursor { at: 0 }
    }

    pub fn step(self, bytes: &[u8]) -> Step
        ensures { told result ≡ step_answer bytes.now self.at }
    {
        let at = self.at;
        if bytes.len() <= at {
            return Step::End;
        }
        let kind = bytes[at];
        let Some(n) = width_of(kind) else {
            return Step::Bad(at);
        };
        let body = at + 1;
        if bytes.len() - body < n {
            Step::Bad(at)
        } else {
            Step::Event(event_at(bytes, kind, body), Cursor { at: body + n })
        }
    }
}

fn event_at(bytes: &[u8], kind: u8, at: usize) -> Event
    requires { (1 ≤ kind) × (kind ≤ 7) × (at + body_width kind ≤ length bytes.now) }
    ensures { result ≡ event_from kind (drop at bytes.now) }
{
    match kind {
        1 => Event::Read(words::load_integer(bytes, at)),
        2 => Event::Wrote(words::load_integer(bytes, at)),
        3 => shared_at(bytes, at),
        4 => opened_at(bytes, at),
        5 => Event::Passed(parties::bytes::load_set(bytes, at)),
        6 => finished_at(bytes, at),
        _ => stopped_at(bytes, at),
    }
}

fn shared_at(bytes: &[u8], at: usize) -> Event
    requires { at + 3 ≤ length bytes.now }
    ensures { result ≡ event_from 3 (drop at bytes.now) }
{
    let a = bytes[at];
    let q = parties::bytes::load_set(bytes, at + 1);
    Event::Shared(Party { index: a }, q)
}

fn opened_at(bytes: &[u8], at: usize) -> Event
    requires { at + 6 ≤ length bytes.now }
    ensures { result ≡ event_from 4 (drop at bytes.now) }
{
    let q = parties::bytes::load_set(bytes, at);
    let i = words::load_integer(bytes, at + 2);
    Event::Opened(q, i)
}

fn finished_at(bytes: &[u8], at: usize) -> Event
    requires { at + 9 ≤ length bytes.now }
    ensures { result ≡ event_from 6 (drop at bytes.now) }
{
    let tag = bytes[at];
    let i = words::load_integer(bytes, at + 1);
    let l = parties::bytes::load_set(bytes, at + 5);
    let h = parties::bytes::load_set(bytes, at + 7);
    Event::Finished(tag, i, l, h)
}

fn stopped_at(bytes: &[u8], at: usize) -> Event
    requires { at + 3 ≤ length bytes.now }
    ensures { result ≡ event_from 7 (drop at bytes.now) }
{
    let refusal = bytes[at];
    let node = words::load2(bytes, at + 1);
    Event::Stopped(refusal, node)
}
