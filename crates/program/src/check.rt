// The check of a program: good, or the byte where the first bad record starts.
ghost use Rattle.std.specs.Prelude.{◌≡◌, ◌<◌, ◌≤◌, max, length};
ghost use Rattle.limits.specs.Limits.{max_parties};
ghost use Rattle.nodes.specs.Nodes.{node_in};
ghost use Rattle.program.specs.Records.{reach_of, found_at, parties_in, AllGood, LostAt};
ghost use Rattle.program.specs.Answer.{told, check_answer};
ghost use Rattle.refusals.specs.declared.Refusal.TheVariants.{BadProgram};

use crate::fields::fields_fit;
use limits::Party;
use nodes::{Node, byte, half};
use refusals::{Refusal, Refused};

// How many parties and nodes a good program has.
#[derive(Clone, Copy)]
pub struct Good {
    pub parties: u8,
    pub nodes: u16,
}

// Where the first bad record starts.
#[derive(Clone, Copy)]
pub struct BadRecord {
    pub place: usize,
}

// A call with a bad program is refused there.
impl From<BadRecord> for Refused {
    ghost from_gives = { λ bad refused. refused ≡ record { refusal = BadProgram; place = bad.place } };

    fn from(bad: BadRecord) -> Refused {
        Refusal::BadProgram.at(bad.place)
    }
}

// What is found of a good record.
#[derive(Clone, Copy)]
struct Found {
    // where the next record starts
    next: usize,
    reach: usize,
}

// n, of a good first record.
fn parties_of(program: &[u8]) -> Option<u8>
    ensures { result ≡ parties_in program.now }
{
    let n = byte(program, 1);
    if byte(program, 0) != 0 {
        return None;
    }
    if n == 0 {
        return None;
    }
    if Party::MAX < n {
        return None;
    }
    Some(n)
}

// One more than the node that a CALL names: so many nodes its program has to have. 0 for any other record.
fn reach_at(program: &[u8], at: usize) -> usize
    requires { at < 65536 }
    ensures { result ≡ reach_of (node_in program.now at) }
{
    if byte(program, at) == 13 {
        return half(program, at + 1) as usize + 1;
    }
    0
}

// The record at `at`, where the next node is numbered `own`.
#[tactic(auto, using(crate::proofs::RecordLaws::found_full))]
fn record_at(program: &[u8], n: u8, own: usize, at: usize) -> Option<Found>
    requires { (n ≤ max_parties) × (at < 65535) × (at < length program.now) }
    ensures { result ≡ found_at program.now n own at }
{
    if Node::MAX <= own {
        return None;
    }
    let (length, rule) = crate::kinds::body_of(byte(program, at))?;
    if program.len() - at - 1 < length {
        return None;
    }
    let next = at + 1 + length;
    let reach = reach_at(program, at);
    if fields_fit(rule, program, at + 1, n, own) {
        return Some(Found { next, reach });
    }
    None
}

fn greater(a: usize, b: usize) -> usize
    ensures { result ≡ max a b }
{
    if a < b { b } else { a }
}

// Where the first CALL starts whose node is none of the program's, in a program of so many good records that has such a CALL.
fn lost_call(program: &[u8], n: u8, nodes: usize) -> usize
    requires { (n ≤ max_parties) × AllGood program.now n nodes }
    ensures { LostAt program.now n result }
{
    let mut at = 2;
    let mut own = 0;
    // by records, of several lengths
    while at < program.len() {
        let Some(Found { next, reach }) = record_at(program, n, own, at) else {
            return at;
        };
        if nodes < reach {
            return at;
        }
        at = next;
        own += 1;
    }
    at
}

pub fn check(program: &[u8]) -> Result<Good, BadRecord>
    ensures { told result ≡ check_answer program.now }
{
    let Some(parties) = parties_of(program) else {
        return Err(BadRecord { place: 0 });
    };
    let mut at = 2;
    let mut own = 0;
    let mut reach = 0;
    // by records, of several lengths
    while at < program.len() {
        let Some(found) = record_at(program, parties, own, at) else {
            return Err(BadRecord { place: at });
        };
        at = found.next;
        own += 1;
        reach = greater(reach, found.reach);
    }
    if own == 0 {
        return Err(BadRecord {
            place: program.len(),
        });
    }
    if reach <= own {
        let nodes = own as u16;
        return Ok(Good { parties, nodes });
    }
    Err(BadRecord {
        place: lost_call(program, parties, own),
    })
}
