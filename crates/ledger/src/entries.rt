// The parties' records lie side by side in the lent bytes, party P's from P times the room on; the lent lengths say how much of each is used.
ghost use Rattle.std.specs.Prelude.{◌≡◌, true, cond, ◌+◌, ◌*◌, ◌≤◌, ◌<◌, length, get_or};
ghost use Rattle.limits.specs.Limits.{max_parties};
ghost use Rattle.parties.specs.Sets.{member};
ghost use Rattle.records.specs.Events.{event_bytes, written, held_back, fits_after};
ghost use Rattle.rules.specs.Books.{event_for};
ghost use Rattle.ledger.specs.Ledger.{none_used, rooms_for, NotesAll, FinishesAll};
ghost use Rattle.ledger.specs.Writes.{Writes, writers, passed_of, chosen, finishing};

use limits::Party;
use parties::sets::PartySet;
use records::events::Event;
use values::value::Value;

// What party p writes of an event of its mode.
pub fn event_for(p: Party, e: Event) -> Event
    ensures { result ≡ event_for p.index e }
{
    match e {
        Event::Opened(q, _) => { if q.has(p) { e } else { Event::Passed(q) } }
        _ => e,
    }
}

// Those who write e as it is: at a reveal whom it is opened to, else all of the mode m.
fn writers(e: Event, m: PartySet) -> PartySet
    ensures { result ≡ writers m e }
{
    match e {
        Event::Opened(q, _) => q,
        _ => m,
    }
}

// What the others write.
fn passed(e: Event) -> Event
    ensures { result ≡ passed_of e }
{
    match e {
        Event::Opened(q, _) => Event::Passed(q),
        _ => e,
    }
}

// p has room after the bytes used: for an event of the size `own` where it is one of those, else of the size `other`.
fn may_note(p: Party, those: PartySet, own: usize, other: usize, room: usize, used: usize) -> bool
    requires { (own ≤ held_back) × (other ≤ held_back) }
    ensures { result ≡ fits_after room used (cond (member p.index those) own other) }
{
    if those.has(p) {
        Event::fits(own, room, used)
    } else {
        Event::fits(other, room, used)
    }
}

// Each member of m has room for what it writes of e.
pub fn room_for_all(e: Event, m: PartySet, n: u8, room: usize, lengths: &[usize]) -> bool
    requires { (n ≤ max_parties) × (n ≤ length lengths.now) }
    ensures { result ≡ rooms_for room n m e lengths.now }
{
    let those = writers(e, m);
    let own = e.size();
    let other = passed(e).size();
    for p in m.meet(PartySet::all(n)).members() {
        let used = lengths[p as usize];
        if !may_note(Party { index: p }, those, own, other, room, used) {
            return false;
        }
    }
    true
}

// What p writes: e if it is one of those, else the other event.
fn chosen(e: Event, other: Event, those: PartySet, p: Party) -> Event
    ensures { result ≡ chosen those e other p.index }
{
    if those.has(p) { e } else { other }
}

// Party p writes what is chosen for it; it has room.
fn note_one(
    e: Event,
    other: Event,
    those: PartySet,
    p: u8,
    room: usize,
    bytes: &mut [u8],
    lengths: &mut [usize],
)
    requires { (p * room + room ≤ length bytes.old) × (p < length lengths.old) × (get_or lengths.old p 0 + length (event_bytes (chosen those e other p)) ≤ room) }
    ensures { Writes room p (event_bytes (chosen those e other p)) bytes.old lengths.old bytes.new lengths.new }
{
    let i = p as usize;
    let start = i * room;
    let end = start + room;
    let used = lengths[i];
    let ev = chosen(e, other, those, Party { index: p });
    ev.store(&mut bytes[start..end], used);
    lengths[i] = used + ev.size();
}

// Each member of m writes its event; all have room.
pub fn note_all(e: Event, m: PartySet, n: u8, room: usize, bytes: &mut [u8], lengths: &mut [usize])
    requires { (n ≤ max_parties) × (n * room ≤ length bytes.old) × (n ≤ length lengths.old) × (rooms_for room n m e lengths.old ≡ true) }
    ensures { NotesAll room n m e bytes.old lengths.old bytes.new lengths.new }
{
    let those = writers(e, m);
    let other = passed(e);
    for p in m.meet(PartySet::all(n)).members() {
        note_one(e, other, those, p, room, bytes, lengths);
    }
}

// Party p writes kind 6, its slice of v, if what is held back for it is left.
fn finish_one(v: Value, p: u8, room: usize, bytes: &mut [u8], lengths: &mut [usize])
    requires { (p * room + room ≤ length bytes.old) × (p < length lengths.old) }
    ensures { Writes room p (written (finishing room v p (get_or lengths.old p 0))) bytes.old lengths.old bytes.new lengths.new }
{
    let i = p as usize;
    let from = i * room;
    let to = from + room;
    let own = v.slice(Party { index: p });
    lengths[i] = Event::finished(own).close(&mut bytes[from..to], lengths[i]);
}

// Every party writes kind 6, each its slice of v.
pub fn finish_all(v: Value, n: u8, room: usize, bytes: &mut [u8], lengths: &mut [usize])
    requires { (n ≤ max_parties) × (n * room ≤ length bytes.old) × (n ≤ length lengths.old) }
    ensures { FinishesAll room n v bytes.old lengths.old bytes.new lengths.new }
{
    for p in 0..n {
        finish_one(v, p, room, bytes, lengths);
    }
}

// No party has used anything of its record.
#[tactic(auto, using(crate::proofs::OpeningLaws::cleared))]
pub fn clear_lengths(n: u8, lengths: &mut [usize])
    requires { n ≤ length lengths.old }
    ensures { lengths.new ≡ none_used n lengths.old }
{
    lengths[..n as usize].fill(0);
}
