// What a name is bound to, in nine lent bytes: the sort, the integer, the place set, the holders.
// A cell of zeros is unbound, so a zeroed level of names has none bound.
#![tactic(auto)]

ghost use Rattle.std.specs.Prelude.{◌≡◌, Bool, ◌+◌, ◌≤◌, Some, length};
ghost use Rattle.std.proofs.lemmas.List.Edits.{sets};
ghost use Rattle.cells.specs.Cells.{width, cell, cell_bytes, cell_at, RangedValue, Ranged};

use parties::sets::PartySet;
use values::value::Value;

// The bytes of a cell.
pub const WIDTH: usize = 9;

// What the cell at a place holds; none is unbound. Unbound is not nothing: a name may be bound to nothing.
pub fn load(s: &[u8], at: usize) -> Option<Value>
    requires { at + width ≤ length s.now }
    ensures { result ≡ cell_at s.now at }
{
    let sort = s[at];
    if sort == 0 {
        return None;
    }
    if sort == 1 {
        return Some(Value::Nothing);
    }
    let i = words::load_integer(s, at + 1);
    let l = parties::bytes::load_set(s, at + 5);
    if sort == 2 {
        return Some(Value::Clear(i, l));
    }
    let h = parties::bytes::load_set(s, at + 7);
    Some(Value::Share(i, h, l))
}

pub fn store(bound: Option<Value>, s: &mut [u8], at: usize)
    requires { at + width ≤ length s.old }
    ensures s_after { s.new ≡ sets s.old at (cell_bytes bound) }
    ensures ranged { Ranged bound }
{
    match bound {
        None => store_cell(s, at, 0, 0, PartySet { bits: 0 }, PartySet { bits: 0 }),
        Some(v) => store_value(s, at, v),
    }
}

fn store_value(s: &mut [u8], at: usize, v: Value)
    requires { at + width ≤ length s.old }
    ensures s_after { s.new ≡ sets s.old at (cell_bytes (Some v)) }
    ensures ranged_value { RangedValue v }
{
    match v {
        Value::Nothing => store_cell(s, at, 1, 0, PartySet { bits: 0 }, PartySet { bits: 0 }),
        Value::Clear(i, l) => store_cell(s, at, 2, i, l, PartySet { bits: 0 }),
        Value::Share(i, h, l) => store_cell(s, at, 3, i, l, h),
    }
}

fn store_cell(s: &mut [u8], at: usize, sort: u8, i: i32, l: PartySet, h: PartySet)
    requires { at + width ≤ length s.old }
    ensures { s.new ≡ sets s.old at (cell sort i l h) }
{
    s[at] = sort;
    words::store_integer(s, at + 1, i);
    parties::bytes::store_set(s, at + 5, l);
    parties::bytes::store_set(s, at + 7, h);
}
