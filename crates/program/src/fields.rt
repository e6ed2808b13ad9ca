// The fields of a record's body: each rule's tests. They join by `&`, since every read answers and none has to be kept from the next.
ghost use Rattle.std.specs.Prelude.{◌≡◌, ◌<◌, ◌≤◌, ltb, get_or, drop};
ghost use Rattle.words.specs.Words.{number_at};
ghost use Rattle.limits.specs.Limits.{max_parties};
ghost use Rattle.parties.specs.SetBytes.{set_at};
ghost use Rattle.nodes.specs.Nodes.{name_in};
ghost use Rattle.program.specs.Check.{is_name, is_full};
ghost use Rattle.program.specs.Records.{rule_fits};

use crate::kinds::Rule;
use limits::{Name, Party};
use nodes::{byte, half, set_at};

fn name_fits(p: &[u8], i: usize) -> bool
    ensures { result ≡ is_name (name_in p.now i) }
{
    Name::new(byte(p, i)).is_some()
}

fn party_fits(p: &[u8], i: usize, n: u8) -> bool
    requires { n ≤ max_parties }
    ensures { result ≡ ltb (get_or p.now i 0) n }
{
    Party::new(byte(p, i), n).is_some()
}

// q: a set of parties below n that is not empty.
fn full_set(p: &[u8], i: usize, n: u8) -> bool
    requires { i < 262144 }
    ensures { result ≡ is_full n (set_at p.now i) }
{
    let q = set_at(p, i);
    q.within(n) & !q.is_empty()
}

// e, e1, e2: a node before the record's own.
fn part_fits(p: &[u8], i: usize, own: usize) -> bool
    requires { i < 262144 }
    ensures { result ≡ ltb (number_at 2 p.now i) own }
{
    (half(p, i) as usize) < own
}

// The fields of the body at `at`, of the node numbered `own` in a program of n parties.
pub fn fields_fit(rule: Rule, p: &[u8], at: usize, n: u8, own: usize) -> bool
    requires { (at < 65536) × (n ≤ max_parties) }
    ensures { result ≡ rule_fits rule (drop at p.now) n own }
{
    match rule {
        Rule::Free => true,
        Rule::OneName => name_fits(p, at),
        Rule::Operation => (byte(p, at) < 5) & name_fits(p, at + 1) & name_fits(p, at + 2),
        Rule::ThreeNames => name_fits(p, at) & name_fits(p, at + 1) & name_fits(p, at + 2),
        Rule::Share => party_fits(p, at, n) & full_set(p, at + 1, n) & name_fits(p, at + 3),
        Rule::Reveal => full_set(p, at, n) & name_fits(p, at + 2),
        Rule::Parts => name_fits(p, at) & part_fits(p, at + 1, own) & part_fits(p, at + 3, own),
        Rule::Par => set_at(p, at).within(n) & part_fits(p, at + 2, own),
        Rule::Call => name_fits(p, at + 2),
    }
}
