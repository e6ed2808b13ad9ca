// A party, a name and a count of frames. Each stands with its limit, MAX, and the constructor that keeps to it.
#![tactic(auto)]

ghost use Rattle.std.specs.Prelude.{◌≡◌, ◌≤◌};
ghost use Rattle.limits.specs.Limits.{max_frames, party_of, name_of};

#[derive(Clone, Copy, PartialEq, Eq)]
pub struct Party {
    pub index: u8,
}

impl Party {
    // There are at most so many parties, numbered from 0.
    pub const MAX: u8 = 16;

    // The party i of n.
    pub fn new(i: u8, n: u8) -> Option<Party>
        ensures { result ≡ party_of i n }
    {
        if i < n {
            if i < Party::MAX {
                return Some(Party { index: i });
            }
        }
        None
    }
}

#[derive(Clone, Copy, PartialEq, Eq)]
pub struct Name {
    pub index: u8,
}

impl Name {
    // There are so many names, numbered from 0.
    pub const MAX: u8 = 16;

    pub fn new(x: u8) -> Option<Name>
        ensures { result ≡ name_of x }
    {
        if x < Name::MAX {
            Some(Name { index: x })
        } else {
            None
        }
    }
}

// How many frames are down, at most so many.
#[derive(Clone, Copy)]
pub struct Depth {
    pub frames: u8,
    pub ghost within: { frames ≤ max_frames },
}

impl Depth {
    ghost use Rattle.limits.specs.Depths.{depth_of, deeper_than};

    // At most so many frames are down.
    pub const MAX: u8 = 64;

    pub fn new(k: u8) -> Option<Depth>
        ensures { result ≡ depth_of k }
    {
        if k <= Depth::MAX {
            Some(Depth { frames: k })
        } else {
            None
        }
    }

    // One frame more.
    pub fn deeper(self) -> Option<Depth>
        ensures { result ≡ deeper_than self }
    {
        let k = self.frames;
        if k < Depth::MAX {
            Some(Depth { frames: k + 1 })
        } else {
            None
        }
    }
}
