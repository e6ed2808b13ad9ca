// What a turn comes to: a meeting of all members, or what a site does by itself.
#![tactic(auto)]

ghost use Rattle.std.specs.Prelude.{◌≡◌, ◌*◌, ◌+◌, ◌≤◌, ◌<◌, length, IfOk};
ghost use Rattle.limits.specs.Limits.{max_parties};
ghost use Rattle.area.specs.Rows.{row_size};
ghost use Rattle.advance.specs.Advances.{Asked};
ghost use Rattle.turn_steps.specs.Steps.{once, taken_by, Meets, ActsAlone};

use area::stand::{ROW, Stand};
use attends::Venue;
use concludes::Joined;
use limits::Party;
use rules::effects::{Effect, Meeting, Offer};

// All of the venue's mode meet there, if they can: whether anything was done.
#[tactic(auto, using(crate::proofs::MeetLaws::meets_missing, crate::proofs::MeetLaws::meets_empty))]
pub fn meet(
    venue: Venue,
    mt: Meeting,
    n: u8,
    room: usize,
    bytes: &mut [u8],
    lengths: &mut [usize],
    work: &mut [u8],
) -> bool
    requires { (n ≤ max_parties) × (n * room ≤ length bytes.old) × (n ≤ length lengths.old) × (n * row_size ≤ length work.old) }
    ensures { Meets venue.node venue.e venue.mode mt n room result bytes.old lengths.old work.old bytes.new lengths.new work.new }
{
    let Some(Offer::Secret(number, holders)) = meets::present::gather(venue, n, room, lengths, work)
    else {
        return false;
    };
    let agreed = meets::present::agreed(venue, mt, n, room, number, holders, lengths, work);
    let outcome = agreed.then_some(Joined {
        meeting: mt,
        number,
    });
    concludes::conclude(outcome, venue.mode, n, room, bytes, lengths, work);
    true
}

// A site takes an input by what it is told.
fn takes_input(told: Result<Effect, u8>, input: Option<i32>) -> bool
    ensures { once result ≡ taken_by told input }
{
    matches!(told, Ok(Effect::Reads)) && input.is_some()
}

// Site p, which stands at t, does what it is told: what its own rule asks, or a stop by any number, as `act` takes it.
pub fn act_alone(
    told: Result<Effect, u8>,
    t: Stand,
    p: u8,
    room: usize,
    inputs: &[i32],
    at: &mut [usize],
    end: &[usize],
    bytes: &mut [u8],
    lengths: &mut [usize],
    work: &mut [u8],
)
    requires { (p * room + room ≤ length bytes.old) × (p < length lengths.old) × (p * row_size + row_size ≤ length work.old) × (p < length at.old) × (p < length end.now) × IfOk told Asked }
    ensures { ActsAlone told t p room inputs.now end.now at.old bytes.old lengths.old work.old at.new bytes.new lengths.new work.new }
{
    let i = p as usize;
    let input = inputs::next_input(i, inputs, at, end);
    let start = i * room;
    let stop = start + room;
    let from = i * ROW;
    let to = from + ROW;
    let used = lengths[i];
    lengths[i] = acts::act(
        told,
        t,
        Party { index: p },
        input,
        used,
        &mut bytes[start..stop],
        &mut work[from..to],
    );
    if takes_input(told, input) {
        at[i] = at[i] + 1;
    }
}
