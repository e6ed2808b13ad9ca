// Two's complement, and numbers of two, four and eight bytes, low byte first, at a place of lent bytes.
#![tactic(auto)]

ghost use Rattle.std.specs.Prelude.{◌≡◌, ◌+◌, ◌≤◌, ◌<◌, length};
ghost use Rattle.std.proofs.lemmas.List.Edits.{sets};
ghost use Rattle.numbers.specs.Integers.{residue, signed};
ghost use Rattle.words.specs.Words.{low_first, number_at, Spells, integer_bytes, integer_at};

// The 32 bits of i in two's complement, as a number.
pub fn bits(i: i32) -> u32
    ensures { result ≡ residue i }
{
    i.cast_unsigned()
}

// The integer that 32 bits stand for in two's complement.
pub fn signed(b: u32) -> i32
    ensures { result ≡ signed b }
{
    b.cast_signed()
}

// The loads and the stores are one call of the library each; a trait over the sizes would be longer than they are.
#[tactic(auto, unfolding(crate::specs::Words::number_at))]
pub fn load2(s: &[u8], at: usize) -> u16
    requires { at + 2 ≤ length s.now }
    ensures { result ≡ number_at 2 s.now at }
{
    u16::from_le_bytes([s[at], s[at + 1]])
}

#[tactic(auto, unfolding(crate::specs::Words::number_at))]
pub fn load4(s: &[u8], at: usize) -> u32
    requires { at + 4 ≤ length s.now }
    ensures { result ≡ number_at 4 s.now at }
{
    u32::from_le_bytes([s[at], s[at + 1], s[at + 2], s[at + 3]])
}

#[tactic(auto, using(crate::proofs::SpellLaws::number_spells), unfolding(crate::specs::Words::number_at))]
pub fn load8(s: &[u8], at: usize) -> u64
    requires { at + 8 ≤ length s.now }
    ensures { Spells 8 s.now at result }
{
    u64::from_le_bytes([
        s[at],
        s[at + 1],
        s[at + 2],
        s[at + 3],
        s[at + 4],
        s[at + 5],
        s[at + 6],
        s[at + 7],
    ])
}

#[tactic(auto, using(crate::proofs::WordLaws::stored))]
pub fn store2(s: &mut [u8], at: usize, half: u16)
    requires { at + 2 ≤ length s.old }
    ensures { s.new ≡ sets s.old at (low_first 2 half) }
{
    s[at..at + 2].copy_from_slice(&half.to_le_bytes());
}

#[tactic(auto, using(crate::proofs::WordLaws::stored))]
pub fn store4(s: &mut [u8], at: usize, n: u32)
    requires { at + 4 ≤ length s.old }
    ensures { s.new ≡ sets s.old at (low_first 4 n) }
{
    s[at..at + 4].copy_from_slice(&n.to_le_bytes());
}

pub fn load_integer(s: &[u8], at: usize) -> i32
    requires { at + 4 ≤ length s.now }
    ensures { result ≡ integer_at s.now at }
{
    signed(load4(s, at))
}

pub fn store_integer(s: &mut [u8], at: usize, i: i32)
    requires { at + 4 ≤ length s.old }
    ensures { s.new ≡ sets s.old at (integer_bytes i) }
{
    store4(s, at, bits(i));
}
