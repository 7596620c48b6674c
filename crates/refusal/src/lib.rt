// Why a file, an event, an offer, a state block or a tick is refused, and the number that is given for it.
#![tactic(auto)]

ghost use Rattle.std.specs.Prelude.{◌≡◌, Some};
ghost use Rattle.std.specs.Fmt.{decimal};
ghost use Rattle.refusal.specs.Refusals.{number_of};

use std::fmt;

// C, D, T and M are a row's cost, deadline, period and margin, R its response bound; B and D an offer's budget and deadline. 12, 13 and 14
// are the numbers of notes, which refuse nothing.
#[derive(Clone, Copy)]
pub enum Refusal {
    Cut = 1,
    UnknownTag = 2,
    WrongLength = 3,
    AfterEnd = 4,
    Row17 = 5,
    CZero = 6,
    COverD = 7,
    DOverT = 8,
    BadRank = 9,
    PassesD = 10,
    NotImage = 11,
    BZero = 15,
    DUnderB = 16,
    QueueFull = 17,
    RoomShort = 18,
    SmallOutput = 19,
    UnknownFlag = 20,
    MZero = 21,
    RMOverD = 22,
}

impl Refusal {
    // The number that stands beside the name above: as, the form for an enum with numbers.
    pub fn number(self) -> u8
        ensures { result ≡ number_of self }
    {
        self as u8
    }
}

impl fmt::Display for Refusal {
    ghost output = { λ why. Some (decimal (number_of why)) };

    fn fmt<W: fmt::Write>(&self, f: &mut fmt::Formatter<W>) -> fmt::Result {
        let number = self.number();
        write!(f, "{number}")
    }
}
