// The bytes of a program.
#![tactic(auto)]

pub mod kinds; // kinds.rt: what the kind byte fixes: the body's length, and the rule for its fields
pub mod fields; // fields.rt: whether a body's fields fit their rule
pub mod check; // check.rt: the check of a program
