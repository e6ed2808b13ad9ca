// Who is at a meeting, what they bring, and whether they agree. Nothing is written here.
ghost use Rattle.std.specs.Prelude.{◌*◌, ◌+◌, ◌≤◌, ◌<◌, length};
ghost use Rattle.limits.specs.Limits.{max_parties};
ghost use Rattle.area.specs.Rows.{row_size};
ghost use Rattle.meets.specs.Meets.{Attends, Brings, Gathers, MemberAgrees, AllAgree, Agreed};

use area::stand::ROW;
use attends::Venue;
use limits::Party;
use parties::sets::PartySet;
use rules::effects::{Meeting, Offer};

// What site p brings if it is at the venue, by its own area and the length of its own record.
fn attendance_at(venue: Venue, p: u8, room: usize, lengths: &[usize], work: &[u8]) -> Option<Offer>
    requires { (p < length lengths.now) × (p * row_size + row_size ≤ length work.now) }
    ensures { Attends venue.node venue.e venue.mode p room result lengths.now work.now }
{
    let i = p as usize;
    let party = Party { index: p };
    let from = i * ROW;
    let to = from + ROW;
    let used = lengths[i];
    attends::attendance_of(venue, party, room, used, &work[from..to])
}

// With what was brought before: what the member p brings, if it is there.
fn brings(
    venue: Venue,
    p: u8,
    room: usize,
    before: Offer,
    lengths: &[usize],
    work: &[u8],
) -> Option<Offer>
    requires { (p < length lengths.now) × (p * row_size + row_size ≤ length work.now) }
    ensures { Brings venue.node venue.e venue.mode p room before result lengths.now work.now }
{
    let offer = attendance_at(venue, p, room, lengths, work)?;
    let Offer::Secret(_, _) = offer else {
        return Some(before);
    };
    Some(offer)
}

// What the members bring, if all of them are at the venue.
pub fn gather(venue: Venue, n: u8, room: usize, lengths: &[usize], work: &[u8]) -> Option<Offer>
    requires { (n ≤ max_parties) × (n ≤ length lengths.now) × (n * row_size ≤ length work.now) }
    ensures { Gathers venue.node venue.e venue.mode n room result lengths.now work.now }
{
    let mut brought = Offer::Empty;
    for p in venue.mode.meet(PartySet::all(n)).members() {
        brought = brings(venue, p, room, brought, lengths, work)?;
    }
    Some(brought)
}

// The member p agrees with the number and its holders.
fn member_agrees(
    venue: Venue,
    p: u8,
    room: usize,
    number: i32,
    holders: PartySet,
    lengths: &[usize],
    work: &[u8],
) -> bool
    requires { (p < length lengths.now) × (p * row_size + row_size ≤ length work.now) }
    ensures { MemberAgrees venue.node venue.e venue.mode p room number holders result lengths.now work.now }
{
    let party = Party { index: p };
    let a = attendance_at(venue, p, room, lengths, work);
    attends::agrees(number, holders, party, a)
}

fn all_agree(
    venue: Venue,
    n: u8,
    room: usize,
    number: i32,
    holders: PartySet,
    lengths: &[usize],
    work: &[u8],
) -> bool
    requires { (n ≤ max_parties) × (n ≤ length lengths.now) × (n * row_size ≤ length work.now) }
    ensures { AllAgree venue.node venue.e venue.mode n room number holders result lengths.now work.now }
{
    for p in venue.mode.meet(PartySet::all(n)).members() {
        if !member_agrees(venue, p, room, number, holders, lengths, work) {
            return false;
        }
    }
    true
}

// At a REVEAL the members have to agree; at a SHARE there is nobody to agree with.
pub fn agreed(
    venue: Venue,
    mt: Meeting,
    n: u8,
    room: usize,
    number: i32,
    holders: PartySet,
    lengths: &[usize],
    work: &[u8],
) -> bool
    requires { (n ≤ max_parties) × (n ≤ length lengths.now) × (n * row_size ≤ length work.now) }
    ensures { Agreed venue.node venue.e venue.mode mt n room number holders result lengths.now work.now }
{
    match mt {
        Meeting::Sharing(_, _) => true,
        Meeting::Revealing(_) => all_agree(venue, n, room, number, holders, lengths, work),
    }
}
