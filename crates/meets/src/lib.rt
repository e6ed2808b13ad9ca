// Who is at a meeting: the members, side by side in what was lent with all sites, are looked at, and nothing is written.
#![tactic(auto)]

pub mod present; // present.rt: who is there, what they bring, and whether they agree
