// What `rehearse` prints for an input.
#![tactic(auto)]

pub mod both; // both.rt: both runs of an input, printed
