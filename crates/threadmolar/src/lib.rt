// The calls that other languages link, over numbers and slices alone. Each answers one number: an answer in its low byte, and above it a place.
#![tactic(auto)]

pub mod answers; // answers.rt: the numbers of the answers, and a number with its place
pub mod check; // check.rt: the check of a program
pub mod runs; // runs.rt: the single run and the joint run
pub mod walking; // walking.rt: a record, event by event
pub mod ordering; // ordering.rt: which of two records goes on beyond the other, and where
