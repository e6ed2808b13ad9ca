// One site, on its own area, record and inputs. Nothing here sees another site.
#![tactic(auto)]

pub mod own; // own.rt: what its own rule asks of it, with its own checks
