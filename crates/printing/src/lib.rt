// The lines that `rehearse` prints of what a call leaves.
#![tactic(auto)]

pub mod lines; // lines.rt: an answer, and each party's record
