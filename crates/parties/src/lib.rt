// Sets of parties.
#![tactic(auto)]

pub mod sets; // sets.rt: sets of parties over 16 bits
pub mod bytes; // bytes.rt: a set in two lent bytes
