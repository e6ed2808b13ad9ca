// The lines that show a case of two records.
#![tactic(auto)]

pub mod lines; // lines.rt: the case's number, a record's walk, the order of two records
