// What comes before the turns, and after them: the check of the turn list, the sites at the start, and whether all have finished.
#![tactic(auto)]

ghost use Rattle.std.specs.Prelude.{◌≡◌, ◌*◌, ◌≤◌, length};
ghost use Rattle.limits.specs.Limits.{max_parties};
ghost use Rattle.rules.specs.Calls.{bad_turn_from};
ghost use Rattle.area.specs.Rows.{row_size};
ghost use Rattle.ends.specs.Ends.{found, finished_at, AllFirst, OpensOne, OpensAll, Finishes};

use area::stand::{ROW, Stand};
use seats::Seat;

// There are at most so many turns.
const TURNS: usize = 65535;

// The index of the first turn that is of no party, or past the last that there may be.
#[tactic(auto, using(crate::proofs::EndsLaws::turn_strange, crate::proofs::EndsLaws::turn_late, crate::proofs::EndsLaws::turn_good, crate::proofs::EndsLaws::turns_over))]
pub fn bad_turn(turns: &[u8], n: u8) -> Option<usize>
    ensures { found result ≡ bad_turn_from n 0 turns.now }
{
    for (j, &turn) in turns.iter().enumerate() {
        if turn >= n || j >= TURNS {
            return Some(j);
        }
    }
    None
}

// A site's own area at the start.
fn open_one(program: &[u8], nodes: usize, start: Stand, area: &mut [u8])
    requires { (nodes ≤ 1024) × (row_size ≤ length area.old) }
    ensures { OpensOne program.now nodes start area.new }
{
    table::prepare(program, nodes, area);
    seats::save_seat(Seat::Running(start), area);
}

// The first site's area is copied to those of the n - 1 others.
#[tactic(auto, using(crate::proofs::EndsLaws::first_one, crate::proofs::EndsLaws::first_more, crate::proofs::EndsLaws::first_all))]
fn copy_first(n: u8, work: &mut [u8])
    requires { (n ≤ max_parties) × (n * row_size ≤ length work.old) }
    ensures { AllFirst n work.old work.new }
{
    for p in 1..n {
        let to = (p as usize) * ROW;
        stretches::copy_within(work, 0, to, ROW);
    }
}

// The areas of n sites at the start. They are alike, so the table of places is made once.
pub fn open_all(program: &[u8], nodes: usize, start: Stand, n: u8, work: &mut [u8])
    requires { (nodes ≤ 1024) × (n ≤ max_parties) × (n * row_size ≤ length work.old) }
    ensures { OpensAll program.now nodes start n work.new }
{
    if n == 0 {
        return;
    }
    open_one(program, nodes, start, &mut work[..ROW]);
    copy_first(n, work);
}

// All of n sites have finished.
#[tactic(auto, using(crate::proofs::EndsLaws::finish_none, crate::proofs::EndsLaws::finish_all, crate::proofs::EndsLaws::finish_more))]
pub fn all_finished(n: u8, work: &[u8]) -> bool
    requires { (n ≤ max_parties) × (n * row_size ≤ length work.now) }
    ensures { Finishes n result work.now }
{
    for p in 0..n {
        let from = (p as usize) * ROW;
        let to = from + ROW;
        if !is_finished(&work[from..to]) {
            return false;
        }
    }
    true
}

// The site of an area has finished.
fn is_finished(area: &[u8]) -> bool
    requires { row_size ≤ length area.now }
    ensures { result ≡ finished_at area.now }
{
    match seats::load_seat(area) {
        Seat::Running(_) => false,
        Seat::Finished => true,
        Seat::Stopped => false,
    }
}
