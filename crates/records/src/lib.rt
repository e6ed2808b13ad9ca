// What a site's record is made of.
#![tactic(auto)]

pub mod events; // events.rt: the seven kinds of event, and writing one
