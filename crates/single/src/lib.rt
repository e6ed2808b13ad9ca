// The single run.
#![tactic(auto)]

pub mod runs; // runs.rt: the run and the call
