// Where each field of what `rehearse` reads stands: program length (2), program, k (1), k counts (2 each), inputs (4 each), budget (4),
// turn count (2), turns. The input is bad if bytes lack or remain, or there are more than 8,192.
ghost use Rattle.std.specs.Prelude.{◌≡◌, ◌+◌, ◌*◌, ◌≤◌, length, IfSome};
ghost use Rattle.cases.specs.Rows.{numbers_at, sum};
ghost use Rattle.cases.specs.Input.{laid_out};

// Where the fields stand.
#[derive(Clone, Copy)]
pub struct Layout {
    // the program starts at 2 and ends here, where k stands
    pub end: usize,
    pub k: usize,
    // where the counts start
    pub counts: usize,
    // how many inputs there are
    pub total: usize,
    // where they start
    pub inputs: usize,
    pub budget: usize,
    // where the turns start, which go to the end
    pub turns: usize,
}

impl Layout {
    // At most so many bytes are read.
    pub const MAX: usize = 8192;
}

// The sum of the k counts at `at`.
fn sum_of(text: &[u8], at: usize, k: usize) -> usize
    requires { (at + 2 * k ≤ length text.now) × (k ≤ 255) }
    ensures { (result ≡ sum (numbers_at 2 k text.now at)) × (result ≤ 65535 * k) }
{
    let mut s = 0;
    for i in 0..k {
        s += words::load2(text, at + 2 * i) as usize;
    }
    s
}

// One pass over the bytes: each field is read once it is known to be there.
pub fn parse(text: &[u8]) -> Option<Layout>
    ensures laid_out { result ≡ laid_out text.now }
    ensures few_counts { IfSome result (λ l. l.k ≤ 255) }
{
    let size = text.len();
    if size < 2 || Layout::MAX < size {
        return None;
    }
    let end = 2 + words::load2(text, 0) as usize;
    let k = *text.get(end)? as usize;
    let counts = end + 1;
    let inputs = counts + 2 * k;
    if size < inputs {
        return None;
    }
    let total = sum_of(text, counts, k);
    let budget = inputs + 4 * total;
    let turns = budget + 6;
    let left = size.checked_sub(turns)?;
    if left != words::load2(text, budget + 4) as usize {
        return None;
    }
    Some(Layout {
        end,
        k,
        counts,
        total,
        inputs,
        budget,
        turns,
    })
}
