// A value, and what a mode, a party and a rule see of it.
ghost use Rattle.std.specs.Prelude.{◌≡◌};
ghost use Rattle.values.specs.Values.{place, moved, restrict, slice, held, had_by};

use limits::Party;
use parties::sets::PartySet;

#[derive(Clone, Copy)]
pub enum Value {
    Nothing,
    // an integer, and the set that it is at
    Clear(i32, PartySet),
    // a number, its holders, and the set that it is at
    Share(i32, PartySet, PartySet),
}

// What a rule that wants a value at exactly m sees of it.
#[derive(Clone, Copy)]
pub struct Held {
    pub secret: bool,
    pub number: i32,
}

impl Value {
    // The set that the value is at. Where sets are concerned this and `moved` are all that knows the sorts.
    pub fn place(self) -> PartySet
        ensures { result ≡ place self }
    {
        match self {
            Value::Nothing => PartySet { bits: 0 },
            Value::Clear(_, l) => l,
            Value::Share(_, _, l) => l,
        }
    }

    // The same value, at the set l.
    pub fn moved(self, l: PartySet) -> Value
        ensures { result ≡ moved l self }
    {
        match self {
            Value::Nothing => Value::Nothing,
            Value::Clear(i, _) => Value::Clear(i, l),
            Value::Share(i, h, _) => Value::Share(i, h, l),
        }
    }

    pub fn restrict(self, m: PartySet) -> Value
        ensures { result ≡ restrict m self }
    {
        let l = self.place().meet(m);
        if l.is_empty() {
            Value::Nothing
        } else {
            self.moved(l)
        }
    }

    pub fn slice(self, p: Party) -> Value
        ensures { result ≡ slice p.index self }
    {
        if self.place().has(p) {
            self
        } else {
            Value::Nothing
        }
    }

    #[tactic(auto, unfolding(crate::specs::Values::held, parties::specs::Sets::same_set))]
    pub fn held(self, m: PartySet) -> Option<Held>
        ensures { result ≡ held m self }
    {
        match self {
            Value::Nothing => None,
            Value::Clear(i, l) => {
                if l == m {
                    Some(Held {
                        secret: false,
                        number: i,
                    })
                } else {
                    None
                }
            }
            Value::Share(i, h, l) => {
                if l == m && h == m {
                    Some(Held {
                        secret: true,
                        number: i,
                    })
                } else {
                    None
                }
            }
        }
    }

    // The value that all of m hold: a share with holders m, or clear.
    pub fn had_by(m: PartySet, secret: bool, i: i32) -> Value
        ensures { result ≡ had_by m secret i }
    {
        if secret {
            Value::Share(i, m, m)
        } else {
            Value::Clear(i, m)
        }
    }
}
