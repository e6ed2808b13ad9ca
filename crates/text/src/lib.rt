// Bytes as text, put at a place of a lent slice. Each call hands back the place after what it wrote.
#![tactic(auto)]

pub mod plain; // plain.rt: bytes as they are
pub mod decimals; // decimals.rt: a number in decimal
pub mod hex; // hex.rt: bytes in lower-case hexadecimal
