// A meeting is concluded: all members take part in it, or all stop.
#![tactic(auto)]

ghost use Rattle.std.specs.Prelude.{◌*◌, ◌+◌, ◌≤◌, ◌<◌, length};
ghost use Rattle.limits.specs.Limits.{max_parties};
ghost use Rattle.area.specs.Rows.{row_size};
ghost use Rattle.concludes.specs.Concludes.{TakesPart, ConcludesOne, ConcludesAll};

use area::stand::{ROW, Stand};
use limits::Party;
use parties::sets::PartySet;
use refusals::Refusal;
use rules::effects::Meeting;
use seats::Seat;

// The meeting that all members join, and the number that it is about.
#[derive(Clone, Copy)]
pub struct Joined {
    pub meeting: Meeting,
    pub number: i32,
}

// The part of site p, which is at the meeting, on its own record and area; how many bytes of the record are then used. Without an outcome the members disagree.
fn take_part(
    outcome: Option<Joined>,
    t: Stand,
    p: Party,
    used: usize,
    bytes: &mut [u8],
    area: &mut [u8],
) -> usize
    requires { row_size ≤ length area.old }
    ensures { TakesPart outcome t p used bytes.old area.old result bytes.new area.new }
{
    let node = t.node;
    match outcome {
        Some(joined) => acts::join(joined.meeting, joined.number, t, p, used, bytes, area),
        None => acts::stop(u8::from(Refusal::Disagreement), node, used, bytes, area),
    }
}

// The member p does its part, if it runs.
fn conclude_one(
    outcome: Option<Joined>,
    p: u8,
    room: usize,
    bytes: &mut [u8],
    lengths: &mut [usize],
    work: &mut [u8],
)
    requires { (p * room + room ≤ length bytes.old) × (p < length lengths.old) × (p * row_size + row_size ≤ length work.old) }
    ensures { ConcludesOne outcome p room bytes.old lengths.old work.old bytes.new lengths.new work.new }
{
    let i = p as usize;
    let party = Party { index: p };
    let from = i * ROW;
    let to = from + ROW;
    let Seat::Running(t) = seats::load_seat(&work[from..to]) else {
        return;
    };
    let start = i * room;
    let end = start + room;
    let used = lengths[i];
    lengths[i] = take_part(
        outcome,
        t,
        party,
        used,
        &mut bytes[start..end],
        &mut work[from..to],
    );
}

// Each member of m does its part.
pub fn conclude(
    outcome: Option<Joined>,
    m: PartySet,
    n: u8,
    room: usize,
    bytes: &mut [u8],
    lengths: &mut [usize],
    work: &mut [u8],
)
    requires { (n ≤ max_parties) × (n * room ≤ length bytes.old) × (n ≤ length lengths.old) × (n * row_size ≤ length work.old) }
    ensures { ConcludesAll outcome m n room bytes.old lengths.old work.old bytes.new lengths.new work.new }
{
    for p in m.meet(PartySet::all(n)).members() {
        conclude_one(outcome, p, room, bytes, lengths, work);
    }
}
