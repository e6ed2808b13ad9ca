// What is left to do of a turn that the loop over moves was left at: the site finishes, stops, meets others or acts, or nothing changes.
#![tactic(auto)]

ghost use Rattle.std.specs.Prelude.{◌+◌, ◌*◌, ◌≤◌, ◌<◌, length};
ghost use Rattle.limits.specs.Limits.{max_parties};
ghost use Rattle.area.specs.Rows.{row_size};
ghost use Rattle.sites.specs.Turns.{LandsRow, TurnsJoined, Fits, TurnsCame};

use advance::Advanced;
use advance::strides::Did;
use area::stand::{Next, ROW, Stand};
use attends::Venue;
use limits::Party;
use site::own::Own;

// Site p, which stands at t at a node of a meeting, meets the others if they are there, or stops by its own checks: whether the turn counts.
fn joined(
    program: &[u8],
    nodes: usize,
    t: Stand,
    p: u8,
    n: u8,
    room: usize,
    inputs: &[i32],
    at: &mut [usize],
    end: &[usize],
    bytes: &mut [u8],
    lengths: &mut [usize],
    work: &mut [u8],
) -> bool
    requires { (p < n) × (n ≤ max_parties) × (n * room ≤ length bytes.old) × (n ≤ length lengths.old) × (n * row_size ≤ length work.old) × (max_parties ≤ length at.old) × (max_parties ≤ length end.now) }
    ensures { TurnsJoined program.now nodes t p n room inputs.now end.now result at.old bytes.old lengths.old work.old at.new bytes.new lengths.new work.new }
{
    let from = p as usize * ROW;
    let to = from + ROW;
    let used = lengths[p as usize];
    let node = table::joint_node(program, nodes, &work[from..to], t.node);
    let party = Party { index: p };
    let venue = Venue {
        node,
        e: t.node,
        mode: t.mode,
    };
    match site::own::own_at(node, party, t, room, used, &work[from..to]) {
        Own::Attends(mt, _) => turn_steps::meet(venue, mt, n, room, bytes, lengths, work),
        Own::Acts(own) => {
            turn_steps::act_alone(Ok(own), t, p, room, inputs, at, end, bytes, lengths, work);
            true
        }
    }
}

// Where a move has led site p, which stood at a node.
fn landed(
    next: Next,
    node: u16,
    p: u8,
    room: usize,
    bytes: &mut [u8],
    lengths: &mut [usize],
    work: &mut [u8],
)
    requires { (p * room + room ≤ length bytes.old) × (p < length lengths.old) × (p * row_size + row_size ≤ length work.old) }
    ensures { LandsRow next node p room bytes.old lengths.old work.old bytes.new lengths.new work.new }
{
    let i = p as usize;
    let start = i * room;
    let stop = start + room;
    let from = i * ROW;
    let to = from + ROW;
    let used = lengths[i];
    lengths[i] = acts::land(
        next,
        node,
        used,
        &mut bytes[start..stop],
        &mut work[from..to],
    );
}

// What is left to do of a turn of site p, once the loop over moves is left: whether the turn counts.
#[tactic(auto, using(crate::proofs::TurnLaws::came_over, crate::proofs::TurnLaws::came_asked, crate::proofs::TurnLaws::came_joined))]
pub fn turn(
    program: &[u8],
    nodes: usize,
    came: Option<Did>,
    p: u8,
    n: u8,
    room: usize,
    inputs: &[i32],
    at: &mut [usize],
    end: &[usize],
    bytes: &mut [u8],
    lengths: &mut [usize],
    work: &mut [u8],
) -> bool
    requires { (p < n) × (n ≤ max_parties) × (n * room ≤ length bytes.old) × (n ≤ length lengths.old) × (n * row_size ≤ length work.old) × (max_parties ≤ length at.old) × (max_parties ≤ length end.now) × Fits came }
    ensures { TurnsCame program.now nodes came p n room inputs.now end.now result at.old bytes.old lengths.old work.old at.new bytes.new lengths.new work.new }
{
    let Some(Did { stand, came }) = came else {
        return false;
    };
    match came {
        Advanced::Moved(next) => {
            landed(next, stand.node, p, room, bytes, lengths, work);
            true
        }
        Advanced::Asks(effect) => {
            let told = Ok(effect);
            turn_steps::act_alone(told, stand, p, room, inputs, at, end, bytes, lengths, work);
            true
        }
        Advanced::Joins => joined(
            program, nodes, stand, p, n, room, inputs, at, end, bytes, lengths, work,
        ),
    }
}
