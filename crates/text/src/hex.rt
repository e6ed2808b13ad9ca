// Bytes in lower-case hexadecimal, put at a place of a lent slice.
ghost use Rattle.std.specs.Prelude.{◌≡◌, ◌+◌, ◌*◌, ◌<◌, ◌≤◌, length};
ghost use Rattle.text.specs.Text.{Puts, hex_digit, hex, spaced};

fn digit(n: u8) -> u8
    requires { n < 16 }
    ensures { result ≡ hex_digit n }
{
    if n < 10 { b'0' + n } else { b'a' + (n - 10) }
}

pub fn put_hex(out: &mut [u8], at: usize, bytes: &[u8]) -> usize
    requires { at + length (hex bytes.now) ≤ length out.old }
    ensures { Puts (hex bytes.now) at result out.old out.new }
{
    let mut to = at;
    for &b in bytes {
        out[to] = digit(b / 16);
        out[to + 1] = digit(b % 16);
        to += 2;
    }
    to
}

// Bytes after a space; nothing where there are none.
#[tactic(auto, using(crate::specs::TextLaws::spaced_none))]
pub fn put_spaced(out: &mut [u8], at: usize, bytes: &[u8]) -> usize
    requires { at + (1 + 2 * length bytes.now) ≤ length out.old }
    ensures { Puts (spaced bytes.now) at result out.old out.new }
{
    if bytes.len() == 0 {
        return at;
    }
    let end = crate::plain::put(out, at, b" ");
    put_hex(out, end, bytes)
}
