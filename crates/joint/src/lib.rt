// The joint run.
#![tactic(auto)]

pub mod runs; // runs.rt: the run and the call
