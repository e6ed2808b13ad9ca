// Steps one after the other as long as control just moves, by whoever's turn it is: in the joint run the turn list says whose; the single run is one row.
// Both runs come here, so that the code of a step has one caller; a run of moves does not leave the loop.
ghost use Rattle.std.specs.Prelude.{◌≡◌, true, ◌+◌, ◌≤◌, ◌<◌, length};
ghost use Rattle.area.specs.Rows.{row_size};
ghost use Rattle.advance.specs.Advances.{GoesFar};
ghost use Rattle.advance.specs.Strides.{whose, view_of, seat_of, leads, Keeps, InRow, RowsFit, StridesTo};

use crate::{Advanced, once};
use area::stand::{Next, ROW, Stand};
use limits::Party;
use rules::effects::View;
use seats::Seat;

// A step, and from where control stood.
#[derive(Clone, Copy)]
pub struct Did {
    pub stand: Stand,
    pub came: Advanced,
}

// Where a step leads that another one may follow.
fn leads(came: Option<Did>) -> Option<Stand>
    ensures { result ≡ leads came }
{
    match came?.came {
        Advanced::Moved(Next::On(t)) => Some(t),
        _ => None,
    }
}

// Whose turn the j-th is.
fn whose(joint: bool, turns: &[u8], j: usize) -> u8
    requires { joint ≡ true → j < length turns.now }
    ensures { result ≡ whose joint turns.now j }
{
    if joint { turns[j] } else { 0 }
}

fn view_of(joint: bool, p: u8) -> View
    ensures { result ≡ view_of joint p }
{
    if joint {
        View::Site(Party { index: p })
    } else {
        View::Whole
    }
}

// Where control stands: a site keeps it in its row; the single run has it at hand.
fn seat_of(joint: bool, t: Stand, w: &[u8]) -> Seat
    requires { row_size ≤ length w.now }
    ensures { result ≡ seat_of joint t w.now }
{
    if joint {
        seats::load_seat(w)
    } else {
        Seat::Running(t)
    }
}

fn keep(joint: bool, t: Stand, w: &mut [u8])
    requires { row_size ≤ length w.old }
    ensures { Keeps joint t w.old w.new }
{
    if joint {
        seats::save_seat(Seat::Running(t), w);
    }
}

// A turn in its own row: a step, if the site is not over. Where it led on, where control now stands is kept.
fn in_row(joint: bool, t: Stand, p: u8, program: &[u8], nodes: usize, w: &mut [u8]) -> Option<Did>
    requires { (row_size ≤ length w.old) × (nodes ≤ 1024) }
    ensures { InRow joint p program.now nodes t result w.old w.new }
{
    let Seat::Running(stand) = seat_of(joint, t, w) else {
        return None;
    };
    let came = once(view_of(joint, p), program, nodes, stand, w);
    let did = Some(Did { stand, came });
    if let Some(next) = leads(did) {
        keep(joint, next, w);
    }
    did
}

// Some turns that led on, and the step of the one after them, if its site is not over.
#[derive(Clone, Copy)]
pub struct Strode {
    pub moves: u32,
    pub came: Option<Did>,
}

// Turns from the first on, at most so many, as long as control just moves.
#[tactic(auto, using(crate::proofs::StrideLaws::led_none, crate::proofs::StrideLaws::turn_on, crate::proofs::StrideLaws::row_there))]
pub fn strides(
    joint: bool,
    turns: &[u8],
    first: usize,
    program: &[u8],
    nodes: usize,
    start: Stand,
    most: u32,
    work: &mut [u8],
) -> Strode
    requires { (1 ≤ most) × (joint ≡ true → first + most ≤ length turns.now) × (first ≤ 65535) × RowsFit joint turns.now (length work.old) × (nodes ≤ 1024) }
    ensures { StridesTo joint turns.now program.now nodes first start most result work.old work.new }
{
    let last = most - 1;
    // made anew from its fields, so that the byte that fills it up is not carried along
    let node = start.node;
    let mode = start.mode;
    let depth = start.depth;
    let mut t = Stand { node, mode, depth };
    let mut k: u32 = 0;
    // the last turn returns, so that after a `for` there would be nothing to answer
    loop {
        let p = whose(joint, turns, first + k as usize);
        let from = p as usize * ROW;
        let to = from + ROW;
        let came = in_row(joint, t, p, program, nodes, &mut work[from..to]);
        match leads(came) {
            Some(next) if k < last => {
                t = next;
                k += 1;
            }
            _ => return Strode { moves: k, came },
        }
    }
}

// Some moves of the single run, the stand that they led to, and what the step from there came to.
#[derive(Clone, Copy)]
pub struct Gone {
    pub moves: u32,
    pub stand: Stand,
    pub came: Advanced,
}

// The single run's steps as long as control just moves, at most `most` of them.
pub fn far(program: &[u8], nodes: usize, start: Stand, most: u32, w: &mut [u8]) -> Gone
    requires { (1 ≤ most) × (length w.old ≡ row_size) × (nodes ≤ 1024) }
    ensures { GoesFar View.Whole program.now nodes start most result w.old w.new }
{
    let nobody = [0u8; 0];
    let strode = strides(false, &nobody, 0, program, nodes, start, most, w);
    // the single run has no seat that is over
    let did = strode.came.unwrap();
    Gone {
        moves: strode.moves,
        stand: did.stand,
        came: did.came,
    }
}
