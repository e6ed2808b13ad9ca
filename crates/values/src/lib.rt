// Values, what a mode and a party see of them, and how a bound value lies in lent bytes.
#![tactic(auto)]

pub mod value; // value.rt: a value; restricted to a mode, sliced for a party, held at exactly a mode
