// Why a call on a book is refused.
ghost use Rattle.std.specs.Prelude.{◌≡◌};
ghost use Rattle.book.specs.Refusals.{range_number, enter_number};
ghost use Rattle.book.specs.declared.refusal.EnterRefusal.TheVariants.{Range, Full as BookFull};

use rows::Full;

// The refusal of every call that is told a number.
#[derive(Clone, Copy, Debug, PartialEq, Eq)]
pub enum RangeRefusal {
    // 1: a name, label or mark number is not below its count, or `at` is above the names
    OutOfRange,
}

// The refusals of entering a tie.
#[derive(Clone, Copy, Debug, PartialEq, Eq)]
pub enum EnterRefusal {
    // 1
    Range(RangeRefusal),
    // 2: the tie is absent, and the ties number the capacity
    Full,
}

impl RangeRefusal {
    // The number by which the refusal is told.
    pub fn number(self) -> u8
        ensures { result ≡ range_number self }
    {
        match self {
            RangeRefusal::OutOfRange => 1,
        }
    }
}

impl EnterRefusal {
    // The number by which the refusal is told.
    pub fn number(self) -> u8
        ensures { result ≡ enter_number self }
    {
        match self {
            EnterRefusal::Range(range) => range.number(),
            EnterRefusal::Full => 2,
        }
    }
}

// No place is left in the row of a book that is full.
impl From<Full> for EnterRefusal {
    ghost from_gives = { λ e r. r ≡ BookFull };

    fn from(_full: Full) -> EnterRefusal {
        Self::Full
    }
}

impl From<RangeRefusal> for EnterRefusal {
    ghost from_gives = { λ e r. r ≡ Range e };

    fn from(refusal: RangeRefusal) -> EnterRefusal {
        EnterRefusal::Range(refusal)
    }
}
