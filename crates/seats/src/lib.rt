// Where a site is between its turns, kept in its area behind the levels.
#![tactic(auto)]

ghost use Rattle.std.specs.Prelude.{◌≡◌, ◌≤◌, length};
ghost use Rattle.area.specs.Rows.{row_size};
ghost use Rattle.seats.specs.Seats.{seat_at, Saves};

use area::stand::Stand;
use limits::Depth;

#[derive(Clone, Copy)]
pub enum Seat {
    Running(Stand),
    Finished,
    Stopped,
}

// Behind the last level: how it is with the site, the node, the mode, the frames.
const HOW: usize = 12448;

const NODE: usize = 12449;

const MODE: usize = 12451;

const FRAMES: usize = 12453;

const STOPPED: u8 = 0;

const FINISHED: u8 = 1;

const RUNNING: u8 = 2;

#[tactic(auto, using(crate::proofs::SeatLaws::load_finished, crate::proofs::SeatLaws::load_stopped))]
pub fn load_seat(w: &[u8]) -> Seat
    requires { row_size ≤ length w.now }
    ensures { result ≡ seat_at w.now }
{
    let how = w[HOW];
    if how == FINISHED {
        return Seat::Finished;
    }
    if how != RUNNING {
        return Seat::Stopped;
    }
    let Some(depth) = Depth::new(w[FRAMES]) else {
        return Seat::Stopped;
    };
    Seat::Running(Stand {
        node: words::load2(w, NODE),
        mode: parties::bytes::load_set(w, MODE),
        depth,
    })
}

pub fn save_seat(seat: Seat, w: &mut [u8])
    requires { row_size ≤ length w.old }
    ensures { Saves seat w.old w.new }
{
    match seat {
        Seat::Finished => {
            w[HOW] = FINISHED;
        }
        Seat::Stopped => {
            w[HOW] = STOPPED;
        }
        Seat::Running(t) => {
            let depth = t.depth;
            let mode = t.mode;
            w[HOW] = RUNNING;
            words::store2(w, NODE, t.node);
            parties::bytes::store_set(w, MODE, mode);
            w[FRAMES] = depth.frames;
        }
    }
}
