// A record, event by event.
ghost use Rattle.std.specs.Prelude.{◌≡◌};
ghost use Rattle.walk.specs.Walk.{step_answer};
ghost use Rattle.threadmolar.specs.Walks.{fields_of, Walks};

use crate::answers::{END, EVENT};
use records::events::Event;
use refusals::Refusal;
use walk::{Cursor, Step};

// An event's kind and what stands in its body; 0 for what its kind does not have.
#[derive(Clone, Copy)]
pub struct Fields {
    pub kind: u8,
    // the party a of kind 3, the tag of kind 6, the refusal of kind 7
    pub detail: u8,
    pub integer: i32,
    // q, or l of kind 6
    pub set: u16,
    pub holders: u16,
    pub node: u16,
}

impl Fields {
    fn new(kind: u8, detail: u8, integer: i32, set: u16, holders: u16, node: u16) -> Fields
        ensures { result ≡ (record { kind = kind; detail = detail; integer = integer; set = set; holders = holders; node = node }) }
    {
        Fields {
            kind,
            detail,
            integer,
            set,
            holders,
            node,
        }
    }
}

fn fields_of(event: Event) -> Fields
    ensures { result ≡ fields_of event }
{
    match event {
        Event::Read(i) => Fields::new(1, 0, i, 0, 0, 0),
        Event::Wrote(i) => Fields::new(2, 0, i, 0, 0, 0),
        Event::Shared(a, q) => Fields::new(3, a.index, 0, q.bits, 0, 0),
        Event::Opened(q, i) => Fields::new(4, 0, i, q.bits, 0, 0),
        Event::Passed(q) => Fields::new(5, 0, 0, q.bits, 0, 0),
        Event::Finished(tag, i, l, h) => Fields::new(6, tag, i, l.bits, h.bits, 0),
        Event::Stopped(refusal, node) => Fields::new(7, refusal, 0, 0, 0, node),
    }
}

#[unsafe(no_mangle)]
pub extern "C" fn threadmolar_walk(
    bytes: &[u8],
    at: usize,
    next: &mut usize,
    kind: &mut u8,
    detail: &mut u8,
    integer: &mut i32,
    set: &mut u16,
    holders: &mut u16,
    node: &mut u16,
) -> u32
    ensures { Walks (step_answer bytes.now at) result next.old (record { kind = kind.old; detail = detail.old; integer = integer.old; set = set.old; holders = holders.old; node = node.old }) next.new (record { kind = kind.new; detail = detail.new; integer = integer.new; set = set.new; holders = holders.new; node = node.new }) }
{
    let here = Cursor { at };
    match here.step(bytes) {
        Step::Event(event, after) => {
            let found = fields_of(event);
            let integer_found = found.integer;
            *next = after.at;
            *kind = found.kind;
            *detail = found.detail;
            *integer = integer_found;
            *set = found.set;
            *holders = found.holders;
            *node = found.node;
            EVENT
        }
        Step::End => END,
        Step::Bad(_) => Refusal::NotAnEvent as u32,
    }
}
