// Refusals: document 01's numbers as the cases of an enum, and the place beside one.
ghost use Rattle.std.specs.Prelude.{◌≡◌};
ghost use Rattle.words.specs.Refusals.{number_of};

// What is wrong, by its number in document 01 and, of 15, in document 02, K2.
#[derive(Clone, Copy, PartialEq, Eq)]
pub enum Reason {
    Cut = 1,
    NotShortest = 2,
    OutOfRange = 3,
    ShortTable = 4,
    Unknown = 5,
    NoRegister = 6,
    NoNode = 7,
    SpareWord = 8,
    Unreachable = 9,
    BytesAfter = 10,
    NoRoom = 11,
    OverBudget = 12,
    NotReturned = 13,
    BuffersDiffer = 14,
    ShortBuffer = 15,
}

impl Reason {
    // Its number.
    pub fn number(self) -> u32
        ensures { result ≡ number_of self }
    {
        self as u32
    }

    // The refusal for this reason at a place.
    pub fn at(self, place: usize) -> Refusal
        ensures { result ≡ record { reason = self; place = place } }
    {
        Refusal {
            reason: self,
            place,
        }
    }
}

// A refusal: what is wrong, and where.
#[derive(Clone, Copy, PartialEq, Eq)]
pub struct Refusal {
    pub reason: Reason,
    pub place: usize,
}
