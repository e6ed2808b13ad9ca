// The names of a node, all looked up at once in the mode, and what its rule then asks for.
#![tactic(auto)]

ghost use Rattle.std.specs.Prelude.{◌≡◌, ◌≤◌, [], ◌∷◌, length, take};
ghost use Rattle.rules.specs.Names.{look, look_all, names_of};
ghost use Rattle.rules.specs.Rules.{rule};
ghost use Rattle.area.specs.Rows.{row_size};
ghost use Rattle.area.specs.Levels.{names_at};
ghost use Rattle.lookup.specs.Lookup.{sought_of, listed, padded, told, joint_rule};

use area::stand::Stand;
use limits::{Depth, Name};
use nodes::{JointNode, Node};
use parties::sets::PartySet;
use refusals::Refusal;
use rules::bindings::{Binding, Bindings};
use rules::effects::{Effect, View};
use values::value::Value;

// A name that is unbound.
#[derive(Clone, Copy)]
pub struct Unbound {
    pub name: Name,
}

// The binding of a name in the level that has so many frames below it, restricted to m.
pub fn seek(w: &[u8], depth: Depth, m: PartySet, x: Name) -> Result<Binding, Unbound>
    requires { row_size ≤ length w.now }
    ensures { result ≡ sought_of x (look m (names_at w.now depth.frames) x) }
{
    let unbound = Unbound { name: x };
    if x.index >= Name::MAX {
        return Err(unbound);
    }
    let level = area::levels::level_at(depth);
    let Some(v) = cells::load(w, level + x.index as usize * cells::WIDTH) else {
        return Err(unbound);
    };
    Ok(Binding {
        name: x,
        value: v.restrict(m),
    })
}

// The names that a node reads, in the order written: the first so many of three.
#[derive(Clone, Copy)]
pub struct Reading {
    pub many: u8,
    pub x: Name,
    pub y: Name,
    pub z: Name,
}

fn reading_of(many: u8, x: Name, y: Name, z: Name) -> Reading
    ensures { listed result ≡ take many (x ∷ y ∷ z ∷ []) }
{
    Reading { many, x, y, z }
}

pub fn names_read(node: Node) -> Reading
    ensures { listed result ≡ names_of node }
{
    let no = Name { index: 0 };
    match node {
        Node::VAR(x) => reading_of(1, x, no, no),
        Node::INT(_) => reading_of(0, no, no, no),
        Node::OP(_, x, y) => reading_of(2, x, y, no),
        Node::MUX(x, y, z) => reading_of(3, x, y, z),
        Node::READ => reading_of(0, no, no, no),
        Node::WRITE(x) => reading_of(1, x, no, no),
        Node::EMBED(x) => reading_of(1, x, no, no),
        Node::SHARE(_, _, x) => reading_of(1, x, no, no),
        Node::REVEAL(_, x) => reading_of(1, x, no, no),
        Node::LET(_, _, _) => reading_of(0, no, no, no),
        Node::CASE(x, _, _) => reading_of(1, x, no, no),
        Node::PAR(_, _) => reading_of(0, no, no, no),
        Node::CALL(_, x) => reading_of(1, x, no, no),
    }
}

// The bindings of a node, or the first of its names that is unbound.
#[tactic(auto, using(crate::proofs::LookupLaws::looked_none, crate::proofs::LookupLaws::first_unbound, crate::proofs::LookupLaws::looked_one, crate::proofs::LookupLaws::second_unbound, crate::proofs::LookupLaws::looked_two, crate::proofs::LookupLaws::third_unbound))]
fn look_all(names: Reading, depth: Depth, m: PartySet, w: &[u8]) -> Result<Bindings, Unbound>
    requires { row_size ≤ length w.now }
    ensures { told result ≡ padded (look_all m (names_at w.now depth.frames) (listed names)) }
{
    let many = names.many;
    let blank = Binding {
        name: Name { index: 0 },
        value: Value::Nothing,
    };
    if many == 0 {
        return Ok(Bindings {
            x: blank,
            y: blank,
            z: blank,
        });
    }
    let x = seek(w, depth, m, names.x)?;
    if many == 1 {
        return Ok(Bindings {
            x,
            y: blank,
            z: blank,
        });
    }
    let y = seek(w, depth, m, names.y)?;
    if many == 2 {
        return Ok(Bindings { x, y, z: blank });
    }
    let z = seek(w, depth, m, names.z)?;
    Ok(Bindings { x, y, z })
}

// What the node at which control stands asks for.
pub fn effect(view: View, node: Node, t: Stand, w: &[u8]) -> Effect
    requires { row_size ≤ length w.now }
    ensures { result ≡ rule view node t.mode (names_at w.now t.depth.frames) }
{
    let m = t.mode;
    let depth = t.depth;
    let Ok(b) = look_all(names_read(node), depth, m, w) else {
        return Effect::Refuse(Refusal::NameUnbound);
    };
    judge::judged::judge(view, node, m, b)
}

// What a joint node asks for, where somebody knows that it is one.
pub fn joint_effect(view: View, node: JointNode, t: Stand, w: &[u8]) -> Effect
    requires { row_size ≤ length w.now }
    ensures { result ≡ joint_rule view node t.mode (names_at w.now t.depth.frames) }
{
    let m = t.mode;
    let depth = t.depth;
    match node {
        JointNode::SHARE(a, q, x) => {
            let Ok(b) = seek(w, depth, m, x) else {
                return Effect::Refuse(Refusal::NameUnbound);
            };
            let v = b.value;
            party_rules::share(view, m, a, q, v)
        }
        JointNode::REVEAL(q, x) => {
            let Ok(b) = seek(w, depth, m, x) else {
                return Effect::Refuse(Refusal::NameUnbound);
            };
            let v = b.value;
            party_rules::reveal(view, m, q, v)
        }
        JointNode::Neither => Effect::Reads,
    }
}
