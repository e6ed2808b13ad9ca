// Whether a site is at a meeting, and what it brings.
#![tactic(auto)]

ghost use Rattle.std.specs.Prelude.{◌≡◌, ◌≤◌, length};
ghost use Rattle.rules.specs.Joint.{agrees};
ghost use Rattle.area.specs.Rows.{row_size};
ghost use Rattle.attends.specs.Attends.{told, AttendsFrom, IsAt};

use area::stand::Stand;
use limits::Party;
use nodes::JointNode;
use parties::sets::PartySet;
use rules::effects::Offer;
use seats::Seat;

// Where a meeting is held: its node, the number of that node, and the mode of those who meet.
#[derive(Clone, Copy)]
pub struct Venue {
    pub node: JointNode,
    pub e: u16,
    pub mode: PartySet,
}

// What site p, which stands at t, brings if it is at the venue and passes its own checks; else it is away.
fn attends_from(
    venue: Venue,
    t: Stand,
    p: Party,
    room: usize,
    used: usize,
    area: &[u8],
) -> Option<Offer>
    requires { row_size ≤ length area.now }
    ensures { AttendsFrom venue.node t venue.e venue.mode p room used result area.now }
{
    let stands = t.node;
    let mode = t.mode;
    if stands != venue.e {
        return None;
    }
    if mode != venue.mode {
        return None;
    }
    let invitation = site::own::invited(venue.node, p, t, room, used, area)?;
    Some(invitation.offer)
}

// The same of any site. One that is over is away, and nobody is told whether it finished or stopped.
pub fn attendance_of(venue: Venue, p: Party, room: usize, used: usize, area: &[u8]) -> Option<Offer>
    requires { row_size ≤ length area.now }
    ensures { IsAt venue.node venue.e venue.mode p room used result area.now }
{
    match seats::load_seat(area) {
        Seat::Running(t) => attends_from(venue, t, p, room, used, area),
        Seat::Finished => None,
        Seat::Stopped => None,
    }
}

// What site p brings, if it is there, agrees with the number i and its holders h.
#[tactic(auto, using(numbers::proofs::OperationLaws::bits_eqb), unfolding(rules::specs::Joint::agrees, parties::specs::Sets::same_set))]
pub fn agrees(i: i32, h: PartySet, p: Party, a: Option<Offer>) -> bool
    ensures { result ≡ agrees i h p.index (told a) }
{
    let Some(offer) = a else {
        return false;
    };
    let Offer::Secret(j, k) = offer else {
        return !h.has(p);
    };
    if h.has(p) {
        if k == h {
            return j == i;
        }
    }
    false
}
