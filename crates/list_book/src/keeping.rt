// Keeping a list book.
ghost use Rattle.std.specs.Prelude.{◌≡◌, true, false};
ghost use Rattle.book.specs.Calls.{entering, entered, striking, struck, marking, marked_as};
ghost use Rattle.list_book.specs.ListBooks.{list_meaning, row_items, row_entered, RowStruck};

use crate::ListBook;
use book::faces::{Keeping, Reading};
use book::mark::MarkFact;
use book::refusal::{EnterRefusal, RangeRefusal};
use book::tie::Tie;

// The calls on mark facts hand over to the mark board, here and in the other make, a line each: a book made
// of a mark board and a store of ties would need a third trait with the laws of both, to save these lines. Setting
// and lifting, as entering and striking, are calls of the trait, which programs name one by one.
// Each call says what the row is after it (`row`): entering and striking write at one place below the
// capacity, and only where they alter the ties; no other call writes.
impl Keeping for ListBook {
    fn capacity(&self) -> usize {
        self.limit
    }

    fn enter(&mut self, tie: Tie) -> Result<(), EnterRefusal>
        ensures answer { result ≡ entering (list_meaning self.old) tie }
        ensures after { list_meaning self.new ≡ entered (list_meaning self.old) tie }
        ensures row { row_items self.new ≡ row_entered self.old tie }
    {
        self.counts().check_tie(tie)?;
        let row = self.row.as_mut_slice();
        if rows::add(&mut row[0..self.limit], self.used, tie)?.is_none() {
            self.used += 1;
        }
        Ok(())
    }

    fn strike(&mut self, tie: Tie) -> Result<(), RangeRefusal>
        ensures answer { result ≡ striking (list_meaning self.old) tie }
        ensures after { list_meaning self.new ≡ struck (list_meaning self.old) tie }
        ensures row { RowStruck self.old tie (row_items self.new) }
    {
        self.counts().check_tie(tie)?;
        if let Some(i) = rows::find(self.ties(), &tie) {
            let last = self.row[self.used - 1];
            self.row[i] = last;
            self.used -= 1;
        }
        Ok(())
    }

    fn set_mark(&mut self, fact: MarkFact) -> Result<(), RangeRefusal>
        ensures answer { result ≡ marking (list_meaning self.old) fact }
        ensures after { list_meaning self.new ≡ marked_as (list_meaning self.old) fact true }
        ensures row { row_items self.new ≡ row_items self.old }
    {
        self.marks.put_mark(fact, true)
    }

    fn lift_mark(&mut self, fact: MarkFact) -> Result<(), RangeRefusal>
        ensures answer { result ≡ marking (list_meaning self.old) fact }
        ensures after { list_meaning self.new ≡ marked_as (list_meaning self.old) fact false }
        ensures row { row_items self.new ≡ row_items self.old }
    {
        self.marks.put_mark(fact, false)
    }
}
