// Reading a list book.
ghost use Rattle.std.specs.Prelude.{◌≡◌};
ghost use Rattle.std.proofs.Common.{arith};
ghost use Rattle.std.proofs.lemmas.Bool.Decides.{nat_tests};
ghost use Rattle.book.specs.Meaning.{ties_of};
ghost use Rattle.list_book.specs.ListBooks.{list_meaning, row_ties};
ghost use Rattle.list_book.specs.Neighbours.{neighbour_by, lowest};

use crate::ListBook;
use book::counts::Counts;
use book::faces::Reading;
use book::mark::MarkFact;
use book::refusal::RangeRefusal;
use book::tie::{Direction, Neighbours, Tie};

impl ListBook {
    // The ties, in the order in which they stand in the row.
    pub(crate) fn ties(&self) -> &[Tie]
        ensures { result.now ≡ row_ties self.now }
    {
        &self.row.as_slice()[..self.used]
    }
}

// The neighbour that the tie makes, if it makes one.
fn neighbour_by(of: Neighbours, tie: &Tie) -> Option<u8>
    ensures { result ≡ neighbour_by of tie.now }
{
    let (near, far) = match of.direction {
        Direction::Forward => (tie.from, tie.to),
        Direction::Backward => (tie.to, tie.from),
    };
    // one test for both, since few ties pass it, while many may have the label
    ((tie.label == of.label) & (near == of.name)).then_some(far)
}

// The lowest neighbour not below `at` that the ties make.
fn lowest(ties: &[Tie], of: Neighbours, at: u8) -> Option<u8>
    ensures { result ≡ lowest of at ties.now }
{
    ties.iter()
        .filter_map(|tie| neighbour_by(of, tie))
        .filter(|name| *name >= at)
        .min()
}

impl Reading for ListBook {
    ghost meaning = { list_meaning };

    ghost sound = { unfold ties_of in
        λ b. record {
          limits = b.marks.within;
          tied_within = λ l f t e.
              let within = b.inside l f t in (
                Prim.grind (arith, nat_tests, e, within),
                Prim.grind (arith, nat_tests, e, within),
                Prim.grind (arith, nat_tests, e, within),
              );
          marked_within = λ k n e.
              (Prim.grind (arith, nat_tests, e), Prim.grind (arith, nat_tests, e));
          fits = omega (arith, b.counted, b.front);
        } };

    fn counts(&self) -> Counts {
        self.marks.counts()
    }

    fn tie_count(&self) -> usize {
        self.used
    }

    fn mark_count(&self) -> usize {
        self.marks.mark_count()
    }

    fn has_tie(&self, tie: Tie) -> Result<bool, RangeRefusal> {
        self.counts().check_tie(tie)?;
        Ok(rows::find(self.ties(), &tie).is_some())
    }

    fn has_mark(&self, fact: MarkFact) -> Result<bool, RangeRefusal> {
        self.marks.has_mark(fact)
    }

    fn next(&self, of: Neighbours, at: u8) -> Result<Option<u8>, RangeRefusal> {
        self.counts().check_next(of, at)?;
        Ok(lowest(self.ties(), of, at))
    }
}
