// The counts and the inputs, read into lent lists: each place of the list is filled. One function over how a place is read would need
// the contract of a closure, which is longer than the two loops.
ghost use Rattle.std.specs.Prelude.{◌≡◌, ◌+◌, ◌*◌, ◌≤◌, length};
ghost use Rattle.cases.specs.Rows.{numbers_at, integers_at};

// The counts from `at` on.
pub fn load_counts(text: &[u8], at: usize, counts: &mut [usize])
    requires { at + 2 * length counts.old ≤ length text.now }
    ensures { counts.new ≡ numbers_at 2 (length counts.old) text.now at }
{
    for (i, count) in counts.iter_mut().enumerate() {
        *count = words::load2(text, at + 2 * i) as usize;
    }
}

// The inputs from `at` on.
pub fn load_inputs(text: &[u8], at: usize, inputs: &mut [i32])
    requires { at + 4 * length inputs.old ≤ length text.now }
    ensures { inputs.new ≡ integers_at (length inputs.old) text.now at }
{
    for (i, input) in inputs.iter_mut().enumerate() {
        *input = words::load_integer(text, at + 4 * i);
    }
}
