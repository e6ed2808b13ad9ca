// The nodes of a program, with their fields as document 01's table has them, and reading one at its place.
// Reading answers zeros past the program's end, so that no reader needs a fact of the check.
#![tactic(auto)]

ghost use Rattle.std.specs.Prelude.{◌≡◌, ◌/◌, ◌%◌, ◌<◌, get_or};
ghost use Rattle.words.specs.Words.{number_at, Spells};
ghost use Rattle.parties.specs.SetBytes.{set_at};
ghost use Rattle.nodes.specs.Nodes.{node_in, joint_node};

use limits::{Name, Party};
use parties::sets::PartySet;

#[derive(Clone, Copy)]
pub enum Node {
    VAR(Name),
    INT(i32),
    // o, x, y; o is the byte as it stands, which the check has to test
    OP(u8, Name, Name),
    MUX(Name, Name, Name),
    READ,
    WRITE(Name),
    EMBED(Name),
    // a, q, x
    SHARE(Party, PartySet, Name),
    // q, x
    REVEAL(PartySet, Name),
    // x, e1, e2
    LET(Name, u16, u16),
    CASE(Name, u16, u16),
    // p, e
    PAR(PartySet, u16),
    // f, x
    CALL(u16, Name),
}

impl Node {
    // A program has at most so many.
    pub const MAX: usize = 1024;
}

pub fn byte(p: &[u8], i: usize) -> u8
    ensures { result ≡ get_or p.now i 0 }
{
    if i < p.len() { p[i] } else { 0 }
}

// One test for both bytes, so that they can be read as one.
#[tactic(auto, using(crate::proofs::ReadLaws::number_last))]
pub fn half(p: &[u8], i: usize) -> u16
    requires { i < 262144 }
    ensures { result ≡ number_at 2 p.now i }
{
    if i + 1 < p.len() {
        return words::load2(p, i);
    }
    byte(p, i) as u16
}

pub fn set_at(p: &[u8], i: usize) -> PartySet
    requires { i < 262144 }
    ensures { result ≡ set_at p.now i }
{
    PartySet { bits: half(p, i) }
}

// The six bytes at a place, and perhaps two more, as one number; zeros past the end. Read at once, so that the fields need no test each.
fn window(p: &[u8], at: usize) -> u64
    requires { at < 65536 }
    ensures { Spells 6 p.now at result }
{
    if at + 8 <= p.len() {
        return words::load8(p, at);
    }
    half(p, at) as u64 + 65536 * (half(p, at + 2) as u64 + 65536 * (half(p, at + 4) as u64))
}

// What a one counts in each byte of a window.
const FIRST: u64 = 1;

const SECOND: u64 = 256;

const THIRD: u64 = 65536;

const FOURTH: u64 = 16777216;

const FIFTH: u64 = 4294967296;

// One, two and four bytes of a window, from the one on that counts `unit`.
fn octet(w: u64, unit: u64) -> u8
    requires { 0 < unit }
    ensures { result ≡ w / unit % 256 }
{
    (w / unit % 256) as u8
}

fn pair(w: u64, unit: u64) -> u16
    requires { 0 < unit }
    ensures { result ≡ w / unit % 65536 }
{
    (w / unit % 65536) as u16
}

fn quad(w: u64, unit: u64) -> u32
    requires { 0 < unit }
    ensures { result ≡ w / unit % 4294967296 }
{
    (w / unit % 4294967296) as u32
}

fn name_of(w: u64, unit: u64) -> Name
    requires { 0 < unit }
    ensures { result ≡ record { index = w / unit % 256 } }
{
    Name {
        index: octet(w, unit),
    }
}

fn set_of(w: u64, unit: u64) -> PartySet
    requires { 0 < unit }
    ensures { result ≡ record { bits = w / unit % 65536 } }
{
    PartySet {
        bits: pair(w, unit),
    }
}

pub fn node_at(p: &[u8], at: usize) -> Node
    requires { at < 65536 }
    ensures { result ≡ node_in p.now at }
{
    let w = window(p, at);
    match octet(w, FIRST) {
        1 => Node::VAR(name_of(w, SECOND)),
        2 => Node::INT(words::signed(quad(w, SECOND))),
        3 => Node::OP(octet(w, SECOND), name_of(w, THIRD), name_of(w, FOURTH)),
        4 => Node::MUX(name_of(w, SECOND), name_of(w, THIRD), name_of(w, FOURTH)),
        6 => Node::WRITE(name_of(w, SECOND)),
        7 => Node::EMBED(name_of(w, SECOND)),
        8 => Node::SHARE(
            Party {
                index: octet(w, SECOND),
            },
            set_of(w, THIRD),
            name_of(w, FIFTH),
        ),
        9 => Node::REVEAL(set_of(w, SECOND), name_of(w, FOURTH)),
        10 => Node::LET(name_of(w, SECOND), pair(w, THIRD), pair(w, FIFTH)),
        11 => Node::CASE(name_of(w, SECOND), pair(w, THIRD), pair(w, FIFTH)),
        12 => Node::PAR(set_of(w, SECOND), pair(w, FOURTH)),
        13 => Node::CALL(pair(w, SECOND), name_of(w, FOURTH)),
        _ => Node::READ,
    }
}

// A node as whoever looks only for meetings sees it: so small that it need not pass through memory, as a Node does.
#[derive(Clone, Copy)]
pub enum JointNode {
    SHARE(Party, PartySet, Name),
    REVEAL(PartySet, Name),
    Neither,
}

pub fn joint_node_at(p: &[u8], at: usize) -> JointNode
    requires { at < 65536 }
    ensures { result ≡ joint_node (node_in p.now at) }
{
    let w = window(p, at);
    match octet(w, FIRST) {
        8 => {
            let a = Party {
                index: octet(w, SECOND),
            };
            JointNode::SHARE(a, set_of(w, THIRD), name_of(w, FIFTH))
        }
        9 => JointNode::REVEAL(set_of(w, SECOND), name_of(w, FOURTH)),
        _ => JointNode::Neither,
    }
}
