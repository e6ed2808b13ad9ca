// Stretches of lent bytes: all of them zeroed, some of them copied to another place.
#![tactic(auto)]

ghost use Rattle.std.specs.Prelude.{◌≡◌, ◌+◌, ◌≤◌, length, replicate};
ghost use Rattle.stretches.specs.Stretches.{copied, Apart};

// All of s becomes zero.
pub fn zero(s: &mut [u8])
    ensures { s.new ≡ replicate (length s.old) 0 }
{
    s.fill(0);
}

// The n bytes at `from` are written at `to`, where none of them lies. Not by the library's `copy_within`: the archive for C would then need `memcpy`
// from outside, and a LET more instructions.
pub fn copy_within(s: &mut [u8], from: usize, to: usize, n: usize)
    requires { (from + n ≤ length s.old) × (to + n ≤ length s.old) × Apart from to n }
    ensures { s.new ≡ copied s.old from to n }
{
    for i in 0..n {
        let b = s[from + i];
        s[to + i] = b;
    }
}
