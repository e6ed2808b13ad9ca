// What a site does, in its own area and its own record. Each function answers how many bytes of the record are then used.
#![tactic(auto)]

ghost use Rattle.std.specs.Prelude.{◌≤◌, length, IfOk};
ghost use Rattle.values.specs.Values.{slice};
ghost use Rattle.refusals.specs.Numbers.{number_of};
ghost use Rattle.rules.specs.Books.{handed, event_of};
ghost use Rattle.rules.specs.Moves.{move};
ghost use Rattle.rules.specs.Joint.{finish, stop, land};
ghost use Rattle.area.specs.Rows.{row_size};
ghost use Rattle.area.specs.Levels.{control_of};
ghost use Rattle.advance.specs.Advances.{Asked};
ghost use Rattle.acts.specs.Acts.{Takes, Lands, Settles, Acts};

use area::stand::{Next, Stand};
use limits::Party;
use records::events::Event;
use refusals::Refusal;
use rules::effects::{Effect, Meeting, Move};
use seats::Seat;
use values::value::Value;

// The site stops by a number. Any will do, as in the event that notes it: a refusal's or not.
pub fn stop(number: u8, node: u16, used: usize, bytes: &mut [u8], area: &mut [u8]) -> usize
    requires { row_size ≤ length area.old }
    ensures { Takes (stop number node) used bytes.old area.old result bytes.new area.new }
{
    seats::save_seat(Seat::Stopped, area);
    Event::Stopped(number, node).close(bytes, used)
}

fn refuse(refusal: Refusal, node: u16, used: usize, bytes: &mut [u8], area: &mut [u8]) -> usize
    requires { row_size ≤ length area.old }
    ensures { Takes (stop (number_of refusal) node) used bytes.old area.old result bytes.new area.new }
{
    stop(u8::from(refusal), node, used, bytes, area)
}

fn finish(v: Value, used: usize, bytes: &mut [u8], area: &mut [u8]) -> usize
    requires { row_size ≤ length area.old }
    ensures { Takes (finish v) used bytes.old area.old result bytes.new area.new }
{
    seats::save_seat(Seat::Finished, area);
    Event::finished(v).close(bytes, used)
}

// Where a move has led the site: on, to its end, or to no place for a frame more.
pub fn land(next: Next, node: u16, used: usize, bytes: &mut [u8], area: &mut [u8]) -> usize
    requires { row_size ≤ length area.old }
    ensures { Lands next node used bytes.old area.old result bytes.new area.new }
{
    match next {
        Next::On(t) => {
            seats::save_seat(Seat::Running(t), area);
            used
        }
        Next::Ends(v) => finish(v, used, bytes, area),
        Next::Full => refuse(Refusal::TooDeep, node, used, bytes, area),
    }
}

fn hand_back(v: Value, t: Stand, used: usize, bytes: &mut [u8], area: &mut [u8]) -> usize
    requires { row_size ≤ length area.old }
    ensures { Takes (land t.node (move (Move.Hand v) (control_of t area.old))) used bytes.old area.old result bytes.new area.new }
{
    let node = t.node;
    let next = area::levels::hand_back(v, t.depth, area);
    land(next, node, used, bytes, area)
}

// The site notes its part of the event and is handed a value back; without room for it the site stops.
fn settle(
    ev: Event,
    v: Value,
    t: Stand,
    p: Party,
    used: usize,
    bytes: &mut [u8],
    area: &mut [u8],
) -> usize
    requires { row_size ≤ length area.old }
    ensures { Settles ev (Move.Hand v) t p used bytes.old area.old result bytes.new area.new }
{
    let node = t.node;
    let Some(next) = ledger::entries::event_for(p, ev).append(bytes, used) else {
        return refuse(Refusal::NoRoom, node, used, bytes, area);
    };
    hand_back(v, t, next, bytes, area)
}

// The site's part in a meeting about the number i: it notes what happened and is handed its slice.
pub fn join(
    mt: Meeting,
    i: i32,
    t: Stand,
    p: Party,
    used: usize,
    bytes: &mut [u8],
    area: &mut [u8],
) -> usize
    requires { row_size ≤ length area.old }
    ensures { Settles (event_of mt i) (Move.Hand (slice p.index (handed mt i))) t p used bytes.old area.old result bytes.new area.new }
{
    let ev = judge::meetings::event_of(mt, i);
    let own = judge::meetings::handed(mt, i).slice(p);
    settle(ev, own, t, p, used, bytes, area)
}

// What the site is told, done: the effect of its own rule, or a stop by any number, since a record can hold any. `input` is its next input, if any is left. A meeting is nothing that a site does by itself, and of a move nothing is left to do.
pub fn act(
    told: Result<Effect, u8>,
    t: Stand,
    p: Party,
    input: Option<i32>,
    used: usize,
    bytes: &mut [u8],
    area: &mut [u8],
) -> usize
    requires { (row_size ≤ length area.old) × IfOk told Asked }
    ensures { Acts told input t p used bytes.old area.old result bytes.new area.new }
{
    let m = t.mode;
    let node = t.node;
    let effect = match told {
        Ok(effect) => effect,
        Err(number) => return stop(number, node, used, bytes, area),
    };
    match effect {
        Effect::Refuse(refusal) => refuse(refusal, node, used, bytes, area),
        Effect::Goes(_) => used,
        Effect::Reads => {
            let Some(i) = input else {
                return refuse(Refusal::NoInput, node, used, bytes, area);
            };
            settle(Event::Read(i), Value::Clear(i, m), t, p, used, bytes, area)
        }
        Effect::Writes(i) => settle(Event::Wrote(i), Value::Clear(0, m), t, p, used, bytes, area),
        Effect::Meets(_, _) => used,
    }
}
