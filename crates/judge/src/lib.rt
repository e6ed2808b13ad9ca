// All rules of one step in code, and what a meeting comes to, as pure functions over values that were looked up.
#![tactic(auto)]

pub mod judged; // judged.rt: all thirteen
pub mod meetings; // meetings.rt: what a meeting writes and hands back
