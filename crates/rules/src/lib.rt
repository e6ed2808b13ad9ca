// What a rule is handed, and what it asks to be done. The rules themselves are definitions, in specs/.
#![tactic(auto)]

pub mod effects; // effects.rt: what a rule asks to be done
pub mod bindings; // bindings.rt: what a rule is handed
