// Numbers as document 01 has them.
#![tactic(auto)]

pub mod integers; // integers.rt: sums, differences and products reduced modulo 2^32; eq and lt
