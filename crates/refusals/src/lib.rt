// The refusals of document 01, in the order tried. specs/Numbers.antt has its words for each.
#![tactic(auto)]

ghost use Rattle.std.specs.Prelude.{◌≡◌};
ghost use Rattle.refusals.specs.Numbers.{number_of};

#[derive(Clone, Copy, PartialEq, Eq, Debug)]
pub enum Refusal {
    BadProgram = 1,
    BadCounts = 2,
    BadTurn = 3,
    TooLittleLent = 4,
    NameUnbound = 5,
    WrongValue = 6,
    WrongMode = 7,
    NoInput = 8,
    NoRoom = 9,
    TooDeep = 10,
    Disagreement = 11,
    NotAnEvent = 12,
}

impl From<Refusal> for u8 {
    ghost from_gives = { λ refusal number. number ≡ number_of refusal };

    fn from(refusal: Refusal) -> u8 {
        refusal as u8
    }
}

// A refused call: by which refusal, and at what place.
#[derive(Clone, Copy, PartialEq, Eq, Debug)]
pub struct Refused {
    pub refusal: Refusal,
    pub place: usize,
}

impl Refusal {
    pub fn at(self, place: usize) -> Refused
        ensures { result ≡ record { refusal = self; place = place } }
    {
        Refused {
            refusal: self,
            place,
        }
    }
}
