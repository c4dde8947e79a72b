// The board book as a book.
ghost use Rattle.std.specs.Prelude.{◌≡◌, true, false};
ghost use Rattle.std.proofs.Common.{arith};
ghost use Rattle.std.proofs.lemmas.Bool.Decides.{nat_tests};
ghost use Rattle.book.specs.Meaning.{ties_of};
ghost use Rattle.book.specs.Calls.{entering, entered, striking, struck, marking, marked_as};
ghost use Rattle.book_laws.proofs.Counting.{count3_le};
ghost use Rattle.marks.specs.MarkBoards.{counts_kept};
ghost use Rattle.board_book.specs.Boards.{board_meaning, words_held};

use crate::board::BoardBook;
use crate::making::possible_ties;
use book::counts::Counts;
use book::faces::{Keeping, Reading};
use book::mark::MarkFact;
use book::refusal::{EnterRefusal, RangeRefusal};
use book::tie::{Direction, Neighbours, Tie};

impl Reading for BoardBook {
    ghost meaning = { board_meaning };

    ghost sound = { unfold ties_of in
        λ b. record {
          limits = b.marks.within;
          tied_within = λ l f t e. Prim.grind (arith, nat_tests, e);
          marked_within = λ k n e. Prim.grind (arith, nat_tests, e);
          fits =
              let counts = counts_kept b.marks in
              count3_le counts.labels counts.names (board_meaning b).tied;
        } };

    fn counts(&self) -> Counts {
        self.marks.counts()
    }

    fn tie_count(&self) -> usize {
        self.used
    }

    fn mark_count(&self) -> usize {
        self.marks.mark_count()
    }

    fn has_tie(&self, tie: Tie) -> Result<bool, RangeRefusal> {
        self.counts().check_tie(tie)?;
        Ok(self.holds(tie))
    }

    fn has_mark(&self, fact: MarkFact) -> Result<bool, RangeRefusal> {
        self.marks.has_mark(fact)
    }

    fn next(&self, of: Neighbours, at: u8) -> Result<Option<u8>, RangeRefusal> {
        self.counts().check_next(of, at)?;
        // two ways: forward the bits stand side by side and are read as one word, backward one by one
        Ok(match of.direction {
            Direction::Forward => self.next_to(of, at),
            Direction::Backward => self.next_from(of, at),
        })
    }
}

// Each call says that there are as many words after it as before (`long`), which no fact of one board says.
impl Keeping for BoardBook {
    fn capacity(&self) -> usize {
        possible_ties(self.counts())
    }

    fn enter(&mut self, tie: Tie) -> Result<(), EnterRefusal>
        ensures answer { result ≡ entering (board_meaning self.old) tie }
        ensures after { board_meaning self.new ≡ entered (board_meaning self.old) tie }
        ensures long { words_held self.new ≡ words_held self.old }
    {
        self.counts().check_tie(tie)?;
        self.put_tie(tie, true);
        Ok(())
    }

    fn strike(&mut self, tie: Tie) -> Result<(), RangeRefusal>
        ensures answer { result ≡ striking (board_meaning self.old) tie }
        ensures after { board_meaning self.new ≡ struck (board_meaning self.old) tie }
        ensures long { words_held self.new ≡ words_held self.old }
    {
        self.counts().check_tie(tie)?;
        self.put_tie(tie, false);
        Ok(())
    }

    fn set_mark(&mut self, fact: MarkFact) -> Result<(), RangeRefusal>
        ensures answer { result ≡ marking (board_meaning self.old) fact }
        ensures after { board_meaning self.new ≡ marked_as (board_meaning self.old) fact true }
        ensures long { words_held self.new ≡ words_held self.old }
    {
        self.marks.put_mark(fact, true)
    }

    fn lift_mark(&mut self, fact: MarkFact) -> Result<(), RangeRefusal>
        ensures answer { result ≡ marking (board_meaning self.old) fact }
        ensures after { board_meaning self.new ≡ marked_as (board_meaning self.old) fact false }
        ensures long { words_held self.new ≡ words_held self.old }
    {
        self.marks.put_mark(fact, false)
    }
}
