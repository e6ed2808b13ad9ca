// The head of a case of the vectors: what the two runs are lent.
ghost use Rattle.std.specs.Prelude.{◌≡◌, ◌≤◌, length};
ghost use Rattle.cases.specs.Lending.{up_to, lending_of};

#[derive(Clone, Copy)]
pub struct Lending {
    pub records: usize,
    pub lengths: usize,
    // working bytes of the two runs
    pub single: usize,
    pub joint: usize,
}

impl Lending {
    // The head has so many bytes.
    pub const SIZE: usize = 13;
    // No case lends more than this.
    pub const RECORDS: usize = 8192;

    pub const LENGTHS: usize = 17;

    pub const WORK: usize = 266240;
}

// n, or `most` where n is more.
fn up_to(most: usize, n: usize) -> usize
    ensures { result ≡ up_to most n }
{
    n.min(most)
}

pub fn lending_of(head: &[u8]) -> Lending
    requires { 13 ≤ length head.now }
    ensures { result ≡ lending_of head.now }
{
    Lending {
        records: up_to(Lending::RECORDS, words::load4(head, 0) as usize),
        lengths: up_to(Lending::LENGTHS, head[4] as usize),
        single: up_to(Lending::WORK, words::load4(head, 5) as usize),
        joint: up_to(Lending::WORK, words::load4(head, 9) as usize),
    }
}
