// What the program `rehearse` reads, and what a case of the vectors lends.
#![tactic(auto)]

pub mod layout; // layout.rt: where each field of an input stands, or that the input is bad
pub mod rows; // rows.rt: the counts and the inputs, read into lent lists
pub mod lending; // lending.rt: the head of a case of the vectors
