// How many names, labels and marks a book and a roll have, and the limits of these counts.
ghost use Rattle.std.specs.Prelude.{◌≡◌};
ghost use Rattle.book.specs.Limits.{count_number, checked, made_counts};

// The three counts. Names, labels and marks are each numbered from 0, so that a number stands for
// something exactly when it is below its count.
#[derive(Clone, Copy, Debug, PartialEq, Eq)]
pub struct Counts {
    pub names: u8,
    pub labels: u8,
    pub marks: u8,
}

// Why counts are refused.
#[derive(Clone, Copy, Debug, PartialEq, Eq)]
pub enum CountRefusal {
    // 20: a count is outside its limits
    OutsideLimits,
}

impl CountRefusal {
    // The number by which the refusal is told.
    pub fn number(self) -> u8
        ensures { result ≡ count_number self }
    {
        match self {
            CountRefusal::OutsideLimits => 20,
        }
    }
}

impl Counts {
    pub const MOST_NAMES: u8 = 64;

    pub const MOST_LABELS: u8 = 16;

    pub const MOST_MARKS: u8 = 16;
    // one name, no label and no mark
    pub const LEAST: Counts = Counts {
        names: 1,
        labels: 0,
        marks: 0,
    };

    // Whether each count is within its limits: 1 to 64 names, 0 to 16 labels, 0 to 16 marks.
    pub fn check(self) -> Result<(), CountRefusal>
        ensures { result ≡ checked self }
    {
        let named = 1 <= self.names && self.names <= Self::MOST_NAMES;
        if named && self.labels <= Self::MOST_LABELS && self.marks <= Self::MOST_MARKS {
            Ok(())
        } else {
            Err(CountRefusal::OutsideLimits)
        }
    }

    // These counts, or one name, no label and no mark where they are outside their limits.
    pub fn or_least(self) -> Counts
        ensures { result ≡ made_counts self }
    {
        self.check().map_or(Counts::LEAST, |()| self)
    }
}
