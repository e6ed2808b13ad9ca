// Integers of 32 bits: sums, differences and products reduced modulo 2^32, and the tests eq and lt.
ghost use Rattle.std.specs.Prelude.{◌≡◌};
ghost use Rattle.numbers.specs.Integers.{reduced, operate, operation_of};

// OP's o, in the order of its numbers 0 to 4.
#[derive(Clone, Copy)]
pub enum Operation {
    Add,
    Sub,
    Mul,
    Eq,
    Lt,
}

// z reduced modulo 2^32 into -2147483648 to 2147483647.
#[tactic(auto, using(crate::proofs::ReduceLaws::below_fits, crate::proofs::ReduceLaws::below_is, crate::proofs::ReduceLaws::above_fits, crate::proofs::ReduceLaws::above_is, crate::proofs::ReduceLaws::within_fits, crate::proofs::ReduceLaws::within_is,),)]
pub fn reduce(z: i64) -> i32
    ensures { result ≡ reduced z }
{
    let r = z % 4294967296;
    if r < -2147483648 {
        return (r + 4294967296) as i32;
    }
    if 2147483647 < r {
        return (r - 4294967296) as i32;
    }
    r as i32
}

pub fn add(x: i32, y: i32) -> i32
    ensures { result ≡ operate Operation.Add x y }
{
    reduce(x as i64 + y as i64)
}

pub fn sub(x: i32, y: i32) -> i32
    ensures { result ≡ operate Operation.Sub x y }
{
    reduce(x as i64 - y as i64)
}

pub fn mul(x: i32, y: i32) -> i32
    ensures { result ≡ operate Operation.Mul x y }
{
    reduce((x as i64) * (y as i64))
}

pub fn eq(x: i32, y: i32) -> i32
    ensures { result ≡ operate Operation.Eq x y }
{
    if x == y { 1 } else { 0 }
}

// By the sign of the reduced difference, as document 01 has it.
#[tactic(auto, using(crate::proofs::OperationLaws::lt_operate))]
pub fn lt(x: i32, y: i32) -> i32
    ensures { result ≡ operate Operation.Lt x y }
{
    if sub(x, y) < 0 { 1 } else { 0 }
}

impl From<u8> for Operation {
    ghost from_gives = { λ o r. r ≡ operation_of o };

    #[tactic(auto, using(crate::proofs::OperationLaws::other_operation), unfolding(crate::specs::Integers::operation_of))]
    fn from(o: u8) -> Operation {
        match o {
            0 => Operation::Add,
            1 => Operation::Sub,
            2 => Operation::Mul,
            3 => Operation::Eq,
            _ => Operation::Lt,
        }
    }
}

impl Operation {
    pub fn of(self, x: i32, y: i32) -> i32
        ensures { result ≡ operate self x y }
    {
        match self {
            Operation::Add => add(x, y),
            Operation::Sub => sub(x, y),
            Operation::Mul => mul(x, y),
            Operation::Eq => eq(x, y),
            Operation::Lt => lt(x, y),
        }
    }
}
