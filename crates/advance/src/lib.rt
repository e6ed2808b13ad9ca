// Steps that need nothing but the area: a node is read and its rule asked, and where control just moves, it moves at once.
#![tactic(auto)]

pub mod strides; // strides.rt: such steps one after the other, by whoever's turn it is

ghost use Rattle.std.specs.Prelude.{◌≡◌, ◌≤◌, length};
ghost use Rattle.nodes.specs.Nodes.{joint_node};
ghost use Rattle.nodes.specs.declared.Node.TheVariants.{CALL};
ghost use Rattle.nodes.specs.declared.JointNode.TheVariants.{Neither};
ghost use Rattle.area.specs.Rows.{row_size};
ghost use Rattle.advance.specs.Advances.{Answers, Advances, Hastens};

use area::stand::{Next, Stand};
use limits::Name;
use nodes::Node;
use rules::effects::{Effect, View};

#[derive(Clone, Copy)]
pub enum Advanced {
    Moved(Next),
    // what else the rule asks for
    Asks(Effect),
    // control stands at a node of a meeting, whose rule is still to be asked
    Joins,
}

// By the rule of any node that is of no meeting.
fn by_rule(view: View, node: Node, t: Stand, w: &mut [u8]) -> Advanced
    requires { (row_size ≤ length w.old) × (joint_node node ≡ Neither) }
    ensures { Answers view node t result w.old w.new }
{
    let effect = lookup::effect(view, node, t, w);
    let Effect::Goes(mv) = effect else {
        return Advanced::Asks(effect);
    };
    Advanced::Moved(area::levels::go(mv, t, w))
}

// What is done of a node before its rule is asked.
#[derive(Clone, Copy)]
enum Haste {
    Moved(Next),
    Joins,
    None,
}

// The value of CALL goes straight where it is bound. A name that is not bound is left to the rule, so that the refusal is made in one place.
fn call(f: u16, x: Name, t: Stand, w: &mut [u8]) -> Haste
    requires { row_size ≤ length w.old }
    ensures { Hastens (CALL f x) t result w.old w.new }
{
    let m = t.mode;
    let depth = t.depth;
    let Ok(b) = lookup::seek(w, depth, m, x) else {
        return Haste::None;
    };
    let v = b.value;
    Haste::Moved(area::levels::call(f, v, t, w))
}

// LET and CALL, which every loop of a program is made of, need not be told from the other moves a second time; a meeting is left to whoever can hold it.
fn hasten(node: Node, t: Stand, w: &mut [u8]) -> Haste
    requires { row_size ≤ length w.old }
    ensures { Hastens node t result w.old w.new }
{
    match node {
        Node::LET(x, e1, e2) => Haste::Moved(area::levels::put_down(x, e1, e2, t, w)),
        Node::CALL(f, x) => call(f, x, t, w),
        Node::SHARE(_, _, _) => Haste::Joins,
        Node::REVEAL(_, _) => Haste::Joins,
        _ => Haste::None,
    }
}

// One step.
fn once(view: View, program: &[u8], nodes: usize, t: Stand, w: &mut [u8]) -> Advanced
    requires { (row_size ≤ length w.old) × (nodes ≤ 1024) }
    ensures { Advances view program.now nodes t result w.old w.new }
{
    let node = table::node(program, nodes, w, t.node);
    match hasten(node, t, w) {
        Haste::Moved(next) => Advanced::Moved(next),
        Haste::Joins => Advanced::Joins,
        Haste::None => by_rule(view, node, t, w),
    }
}
