// What each of the thirteen kinds does with the values of its names.
ghost use Rattle.std.specs.Prelude.{◌≡◌};
ghost use Rattle.rules.specs.Rules.{judge};
ghost use Rattle.local_rules.specs.Handed.{values_of};

use nodes::Node;
use parties::sets::PartySet;
use rules::bindings::Bindings;
use rules::effects::{Effect, Move, View};
use values::value::Value;

pub fn judge(view: View, node: Node, m: PartySet, b: Bindings) -> Effect
    ensures { result ≡ judge view node m (values_of b) }
{
    let bx = b.x;
    let by = b.y;
    let bz = b.z;
    let x = bx.value;
    let y = by.value;
    let z = bz.value;
    match node {
        Node::VAR(_) => Effect::Goes(Move::Hand(x)),
        Node::INT(i) => Effect::Goes(Move::Hand(Value::Clear(i, m))),
        Node::OP(o, _, _) => local_rules::op(o, x, y, m),
        Node::MUX(_, _, _) => local_rules::mux(x, y, z, m),
        Node::READ => local_rules::read(m),
        Node::WRITE(_) => local_rules::write(x, m),
        Node::EMBED(_) => local_rules::embed(x, m),
        Node::SHARE(a, q, _) => party_rules::share(view, m, a, q, x),
        Node::REVEAL(q, _) => party_rules::reveal(view, m, q, x),
        Node::LET(name, e1, e2) => Effect::Goes(Move::Down(name, e1, e2)),
        Node::CASE(_, e1, e2) => local_rules::case(x, m, e1, e2),
        Node::PAR(p, e) => party_rules::par(view, m, p, e),
        Node::CALL(f, _) => Effect::Goes(Move::Call(f, x)),
    }
}
