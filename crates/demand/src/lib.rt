// The refusals, and why bytes are no whole. The demand on every reading, and the theorem that carries it, stand in specs/.
#![tactic(auto)]

ghost use Rattle.std.specs.Prelude.{◌≡◌, ℕ, cond, ltb};
ghost use Rattle.demand.specs.Numbers.{CHARACTER};
ghost use Rattle.demand.specs.Numbered.{number_of, itself, judged_by};
ghost use Rattle.demand.specs.Stops.{behind, PlacedBehind};

// The number of what is accepted.
pub const ACCEPTED: u8 = 0;

// The refusals, each with its number in the table.
#[derive(Clone, Copy, Debug, PartialEq, Eq)]
pub enum Refusal {
    Short = 1,
    Identifier = 2,
    Nested = 3,
    Character = 4,
    Value = 5,
    Trailing = 6,
    Shape = 7,
    Field = 8,
    Room = 9,
    Check = 10,
    Day = 11,
    Time = 12,
    Repeat = 13,
    Already = 14,
    Full = 15,
    Absent = 16,
    Tag = 17,
    Length = 18,
}

impl Refusal {
    // Its number in the table.
    pub fn number(self) -> u8
        ensures { result ≡ number_of self }
    {
        self as u8
    }
}

// What tells a refusal: itself, or any number, as C has it.
pub trait Reason {
    ghost numbered: { Self → ℕ };

    // The refusal of a byte outside the set of its position.
    fn outside() -> Self
        ensures { numbered result ≡ CHARACTER };

    fn to_number(self) -> u8
        ensures { result ≡ numbered self };
}

impl Reason for Refusal {
    ghost numbered = { number_of };

    fn outside() -> Refusal {
        Refusal::Character
    }

    fn to_number(self) -> u8 {
        self.number()
    }
}

impl Reason for u8 {
    ghost numbered = { itself };

    fn outside() -> u8 {
        Refusal::Character.number()
    }

    fn to_number(self) -> u8 {
        self
    }
}

// The refusal of what is unlawful at a position: one before an index, another from there on.
pub fn refusal_by<R: Reason + Copy>(i: usize, end: usize, before: R, after: R) -> R
    ensures { result ≡ cond (ltb i end) before after }
{
    if i < end { before } else { after }
}

// Whether a byte of a content fits: in its position's set or not, going on to a lawful value or not.
pub fn verdict<R: Reason + Copy>(inside: bool, goes: bool, refusal: R) -> Result<(), R>
    ensures { judged_by R.numbered result ≡ cond inside (cond goes 0 (R.numbered refusal)) CHARACTER }
{
    if !inside {
        return Err(R::outside());
    }
    if goes { Ok(()) } else { Err(refusal) }
}

// Why bytes are no whole: they end before it, or one of them is refused, by its place.
#[derive(Clone, Copy, Debug, PartialEq, Eq)]
pub enum Stop {
    Short,
    Refused(Refusal, usize),
}

impl Stop {
    // The same of bytes that begin so many further on.
    pub fn behind(self, bytes: usize) -> Stop
        requires { PlacedBehind self bytes }
        ensures { result ≡ behind self bytes }
    {
        match self {
            Stop::Short => Stop::Short,
            Stop::Refused(refusal, place) => Stop::Refused(refusal, place + bytes),
        }
    }
}
