// Each party's inputs lie one after the other in the lent list: `at` has where each party's next one is, `end` where its inputs end.
#![tactic(auto)]

ghost use Rattle.std.specs.Prelude.{◌≡◌, ◌&&◌, ◌≤◌, ◌<◌, ◌-◌, eqb, length, get_or, take, drop};
ghost use Rattle.rules.specs.Lent.{sum};
ghost use Rattle.inputs.specs.Inputs.{Divided, head_of};

// The counts are n in number and sum to the number of inputs.
pub fn counts_fit(counts: &[usize], n: u8, inputs: usize) -> bool
    ensures { result ≡ (eqb (length counts.now) n && eqb (sum counts.now) inputs) }
{
    if counts.len() != n as usize {
        return false;
    }
    let mut left = inputs;
    for &count in counts {
        let Some(rest) = left.checked_sub(count) else {
            return false;
        };
        left = rest;
    }
    left == 0
}

// Where each party's inputs start and end.
pub fn divide(counts: &[usize], inputs: &[i32], at: &mut [usize], end: &mut [usize])
    requires { (sum counts.now ≡ length inputs.now) × (length counts.now ≤ length at.old) × (length counts.now ≤ length end.old) }
    ensures { Divided counts.now at.old end.old at.new end.new }
{
    let mut s = 0;
    for (k, &count) in counts.iter().enumerate() {
        at[k] = s;
        s += count;
        end[k] = s;
    }
}

// The input of party p that is next, if any is left.
pub fn next_input(p: usize, inputs: &[i32], at: &[usize], end: &[usize]) -> Option<i32>
    requires { (p < length at.now) × (p < length end.now) }
    ensures { result ≡ head_of (take (get_or end.now p 0 - get_or at.now p 0) (drop (get_or at.now p 0) inputs.now)) }
{
    let i = at[p];
    if i < end[p] {
        inputs.get(i).copied()
    } else {
        None
    }
}
