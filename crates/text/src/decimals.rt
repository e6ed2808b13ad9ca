// A number in decimal, put at a place of a lent slice.
ghost use Rattle.std.specs.Prelude.{◌+◌, ◌≤◌, length};
ghost use Rattle.text.specs.Text.{Puts, max_digits, decimal};

// The digits are found from the last to the first, and then put.
pub fn put_decimal(out: &mut [u8], at: usize, n: u64) -> usize
    requires { at + max_digits ≤ length out.old }
    ensures { Puts (decimal n) at result out.old out.new }
{
    let mut digits = [0u8; 20];
    let mut first: usize = 19;
    let mut left = n;
    // as many as there are
    while 9 < left {
        digits[first] = b'0' + (left % 10) as u8;
        left = left / 10;
        first -= 1;
    }
    digits[first] = b'0' + left as u8;
    crate::plain::put(out, at, &digits[first..])
}
