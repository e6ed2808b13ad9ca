// The table of places at the head of an area, and the node that it leads to.
#![tactic(auto)]

ghost use Rattle.std.specs.Prelude.{◌≡◌, ◌≤◌, length};
ghost use Rattle.area.specs.Rows.{row_size};
ghost use Rattle.nodes.specs.Nodes.{joint_node};
ghost use Rattle.table.specs.Table.{node_by, Prepared};

use nodes::{JointNode, Node};

// An area at the start of a run: the places of the nodes, and no name bound in the first level, from which the others are copied.
pub fn prepare(program: &[u8], nodes: usize, w: &mut [u8])
    requires { (nodes ≤ 1024) × (row_size ≤ length w.old) }
    ensures { Prepared program.now nodes w.new }
{
    stretches::zero(&mut w[2048..2192]);
    places::index(program, nodes, &mut w[..2048]);
}

// The node numbered k; past the last one READ, so that nobody has to show that there is one.
pub fn node(program: &[u8], nodes: usize, w: &[u8], k: u16) -> Node
    requires { (nodes ≤ 1024) × (row_size ≤ length w.now) }
    ensures { result ≡ node_by program.now nodes w.now k }
{
    let own = k as usize;
    if own < nodes {
        nodes::node_at(program, words::load2(w, 2 * own) as usize)
    } else {
        Node::READ
    }
}

// The same for whoever looks only for meetings. It does not go by `node`, which is inlined because it has one caller.
pub fn joint_node(program: &[u8], nodes: usize, w: &[u8], k: u16) -> JointNode
    ensures { result ≡ joint_node (node_by program.now nodes w.now k) }
{
    let own = k as usize;
    if nodes <= own {
        return JointNode::Neither;
    }
    nodes::joint_node_at(program, places::place_of(w, own))
}
