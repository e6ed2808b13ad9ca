// Sets of parties over 16 bits: bit i for party i.
ghost use Rattle.std.specs.Prelude.{◌≡◌, Bool, ◌<◌, ◌≤◌};
ghost use Rattle.std.specs.Iterator.{at_most};
ghost use Rattle.limits.specs.Limits.{max_parties};
ghost use Rattle.parties.specs.Sets.{member, meet, join, is_empty, count, lowest, rest, only, all, within, make_up, GivesLowest};

use limits::Party;

#[derive(Clone, Copy, PartialEq, Eq)]
pub struct PartySet {
    pub bits: u16,
}

impl PartySet {
    pub fn has(self, p: Party) -> bool
        ensures { result ≡ member p.index self }
    {
        let i = p.index;
        if i < Party::MAX {
            (self.bits >> i) % 2 == 1
        } else {
            false
        }
    }

    pub fn meet(self, t: PartySet) -> PartySet
        ensures { result ≡ meet self t }
    {
        PartySet {
            bits: self.bits & t.bits,
        }
    }

    pub fn join(self, t: PartySet) -> PartySet
        ensures { result ≡ join self t }
    {
        PartySet {
            bits: self.bits | t.bits,
        }
    }

    pub fn is_empty(self) -> bool
        ensures { result ≡ is_empty self }
    {
        self.bits == 0
    }

    // How many parties are in the set.
    pub fn count(self) -> u32
        ensures { result ≡ count self }
    {
        u16::count_ones(self.bits)
    }

    // The lowest party in the set; 16 where there is none, as the definition `lowest` has it. `members` gives an Option.
    pub fn lowest(self) -> u8
        ensures { result ≡ lowest self }
    {
        u16::trailing_zeros(self.bits) as u8
    }

    // The set without its lowest party.
    #[tactic(auto, using(crate::proofs::BitLaws::rest_none))]
    pub fn rest(self) -> PartySet
        ensures { result ≡ rest self }
    {
        let b = self.bits;
        if b == 0 {
            return self;
        }
        PartySet { bits: b & (b - 1) }
    }

    // The parties of the set, the lowest first.
    pub fn members(self) -> Members
        ensures { result.left ≡ self }
    {
        Members { left: self }
    }

    // The set holds only parties below n.
    pub fn within(self, n: u8) -> bool
        ensures { result ≡ within n self }
    {
        if n < Party::MAX {
            self.bits >> n == 0
        } else {
            true
        }
    }

    // a and q together are exactly this set.
    #[tactic(auto, using(crate::proofs::BitLaws::none_made), unfolding(crate::specs::Sets::make_up, crate::specs::Sets::same_set))]
    pub fn made_up_by(self, a: Party, q: PartySet) -> bool
        ensures { result ≡ make_up a.index q self }
    {
        if a.index < Party::MAX {
            self == PartySet::only(a).join(q)
        } else {
            false
        }
    }

    pub fn only(p: Party) -> PartySet
        requires { p.index < max_parties }
        ensures { result ≡ only p.index }
    {
        PartySet {
            bits: 1u16 << p.index,
        }
    }

    // All parties below n.
    pub fn all(n: u8) -> PartySet
        requires { n ≤ max_parties }
        ensures { result ≡ all n }
    {
        PartySet {
            bits: ((1u32 << n) - 1) as u16,
        }
    }
}

// The parties of a set that are still to come, the lowest first.
#[derive(Clone, Copy)]
pub struct Members {
    pub left: PartySet,
}

impl Iterator for Members {
    type Item = u8;

    ghost next_gives = { λ s r t. GivesLowest s.left r t.left };

    ghost remaining = { λ s. at_most s.left.bits };

    #[tactic(auto, using(crate::specs::SetLaws::rest_fewer))]
    fn next(&mut self) -> Option<u8> {
        if self.left.is_empty() {
            return None;
        }
        let p = self.left.lowest();
        self.left = self.left.rest();
        Some(p)
    }
}
