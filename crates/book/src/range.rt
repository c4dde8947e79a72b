// Whether the numbers that a call is told are in range.
ghost use Rattle.std.specs.Prelude.{◌≡◌};
ghost use Rattle.book.specs.Calls.{tie_within, mark_within, next_within, ranged};

use crate::counts::Counts;
use crate::mark::MarkFact;
use crate::refusal::RangeRefusal;
use crate::tie::{Neighbours, Tie};

// Accepts numbers that are in range, and no others.
fn ranged(within: bool) -> Result<(), RangeRefusal>
    ensures { result ≡ ranged within }
{
    if within {
        Ok(())
    } else {
        Err(RangeRefusal::OutOfRange)
    }
}

impl Counts {
    // Whether each number of the tie is below its count.
    pub fn check_tie(self, tie: Tie) -> Result<(), RangeRefusal>
        ensures { result ≡ ranged (tie_within self tie) }
    {
        ranged(tie.label < self.labels && tie.from < self.names && tie.to < self.names)
    }

    // Whether the mark and the name are below their counts.
    pub fn check_mark(self, fact: MarkFact) -> Result<(), RangeRefusal>
        ensures { result ≡ ranged (mark_within self fact) }
    {
        ranged(fact.mark < self.marks && fact.name < self.names)
    }

    // Whether the label and the name are below their counts, and `at` is not above the names.
    pub fn check_next(self, of: Neighbours, at: u8) -> Result<(), RangeRefusal>
        ensures { result ≡ ranged (next_within self of at) }
    {
        ranged(of.label < self.labels && of.name < self.names && at <= self.names)
    }
}
