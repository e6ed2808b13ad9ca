// The levels of one party's lent working area: its names and its frames.
#![tactic(auto)]

pub mod stand; // stand.rt: where control stands, and where it goes next
pub mod levels; // levels.rt: the moves: handing back, putting a frame down, calling
