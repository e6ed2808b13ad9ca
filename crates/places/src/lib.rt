// The table of places: where each node starts, two bytes a node, low byte first, at the head of some lent bytes.
#![tactic(auto)]

ghost use Rattle.std.specs.Prelude.{◌≡◌, ◌*◌, ◌<◌, ◌≤◌, length};
ghost use Rattle.words.specs.Words.{number_at};
ghost use Rattle.places.specs.Places.{next_at, Tabled};

use nodes::{byte, half};

fn next_at(program: &[u8], at: usize) -> usize
    requires { at < 65536 }
    ensures { result ≡ next_at program.now at }
{
    match program::kinds::body_of(byte(program, at)) {
        Some((length, _)) => at + 1 + length,
        None => at + 1,
    }
}

// Writes the places of the first `nodes` nodes.
#[tactic(auto, using(crate::proofs::PlaceLaws::place_small, crate::proofs::PlaceLaws::listing_end))]
pub fn index(program: &[u8], nodes: usize, table: &mut [u8])
    requires { (nodes ≤ 1024) × (2 * nodes ≤ length table.old) }
    ensures { Tabled program.now nodes table.old table.new }
{
    let mut at = 2;
    for k in 0..nodes {
        let place = at as u16;
        words::store2(table, 2 * k, place);
        at = next_at(program, at);
    }
}

// The place of the node numbered k.
pub fn place_of(table: &[u8], k: usize) -> usize
    requires { k < 65536 }
    ensures { (result ≡ number_at 2 table.now (2 * k)) × (result < 65536) }
{
    half(table, 2 * k) as usize
}
