// Where control stands. The bindings and the frames lie in the area's levels: the present bindings are the level that is numbered by the
// frames that are down, and each frame is a level below it, where it lay when it was put down.
use limits::Depth;
use parties::sets::PartySet;
use values::value::Value;

// What a party's area has to have, by document 01.
pub const AREA: usize = 16384;

// What of it is used: areas that lie this far apart share the lines of a cache more evenly.
pub const ROW: usize = 12608;

#[derive(Clone, Copy)]
pub struct Stand {
    pub node: u16,
    pub mode: PartySet,
    pub depth: Depth,
}

#[derive(Clone, Copy)]
pub enum Next {
    On(Stand),
    Ends(Value),
    // no frame more can be put down
    Full,
}
