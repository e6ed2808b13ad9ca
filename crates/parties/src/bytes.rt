// A party set is two bytes, low byte first.
ghost use Rattle.std.specs.Prelude.{◌≡◌, ◌+◌, ◌≤◌, length};
ghost use Rattle.std.proofs.lemmas.List.Edits.{sets};
ghost use Rattle.parties.specs.SetBytes.{set_bytes, set_at};

use crate::sets::PartySet;

pub fn load_set(s: &[u8], at: usize) -> PartySet
    requires { at + 2 ≤ length s.now }
    ensures { result ≡ set_at s.now at }
{
    PartySet {
        bits: words::load2(s, at),
    }
}

pub fn store_set(s: &mut [u8], at: usize, q: PartySet)
    requires { at + 2 ≤ length s.old }
    ensures { s.new ≡ sets s.old at (set_bytes q) }
{
    words::store2(s, at, q.bits);
}
