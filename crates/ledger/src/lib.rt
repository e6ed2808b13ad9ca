// The parties' books as they lie in what was lent.
#![tactic(auto)]

pub mod entries; // entries.rt: the records, side by side in the lent bytes: who has room, and what each party writes
