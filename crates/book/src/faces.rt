// The two faces of a book: reading it and keeping it.
ghost use Rattle.std.specs.Prelude.{◌≡◌, true, false};
ghost use Rattle.book.specs.Meaning.{Meaning, Sound, ties_of, marks_of};
ghost use Rattle.book.specs.Calls.{TieTold, MarkTold, entering, entered, striking, struck, marking, marked_as, Next};

use crate::counts::Counts;
use crate::mark::MarkFact;
use crate::refusal::{EnterRefusal, RangeRefusal};
use crate::tie::{Neighbours, Tie};

// A book that can be asked, and is not altered by it.
pub trait Reading {
    // what the book means
    ghost meaning: { Self → Meaning };

    // How many names, labels and marks there are.
    fn counts(&self) -> Counts
        ensures { result ≡ (meaning self.now).counts };

    // How many ties there are.
    fn tie_count(&self) -> usize
        ensures { result ≡ ties_of (meaning self.now) };

    // How many mark facts there are.
    fn mark_count(&self) -> usize
        ensures { result ≡ marks_of (meaning self.now) };

    // Whether the tie is there.
    fn has_tie(&self, tie: Tie) -> Result<bool, RangeRefusal>
        ensures { TieTold (meaning self.now) tie result };

    // Whether the name has the mark.
    fn has_mark(&self, fact: MarkFact) -> Result<bool, RangeRefusal>
        ensures { MarkTold (meaning self.now) fact result };

    // The lowest of the neighbours that is not below `at`. The lowest name that may be told is no part of
    // the neighbours: to go through them is to ask for the same ones again, each time from a higher name on.
    fn next(&self, of: Neighbours, at: u8) -> Result<Option<u8>, RangeRefusal>
        ensures { Next (meaning self.now) of at result };

    ghost sound: { (b : Self) → Sound (meaning b) };
}

// A book that can be altered too.
pub trait Keeping: Reading {
    // What a make keeps true of itself from call to call, where it has more to tell than its meaning: a promise
    // that code over any make hands on, so that each call says that it keeps it.
    ghost holds: { Self → Type 0 } = { λ _. Unit {0} };

    // How many ties the book can hold.
    fn capacity(&self) -> usize
        ensures { result ≡ (Self.meaning self.now).capacity };

    // Puts the tie in.
    fn enter(&mut self, tie: Tie) -> Result<(), EnterRefusal>
        ensures answer { result ≡ entering (Self.meaning self.old) tie }
        ensures after { Self.meaning self.new ≡ entered (Self.meaning self.old) tie }
        ensures held { holds self.old → holds self.new };

    // Takes the tie out.
    fn strike(&mut self, tie: Tie) -> Result<(), RangeRefusal>
        ensures answer { result ≡ striking (Self.meaning self.old) tie }
        ensures after { Self.meaning self.new ≡ struck (Self.meaning self.old) tie }
        ensures held { holds self.old → holds self.new };

    // Gives the name the mark.
    fn set_mark(&mut self, fact: MarkFact) -> Result<(), RangeRefusal>
        ensures answer { result ≡ marking (Self.meaning self.old) fact }
        ensures after { Self.meaning self.new ≡ marked_as (Self.meaning self.old) fact true }
        ensures held { holds self.old → holds self.new };

    // Takes the mark from the name.
    fn lift_mark(&mut self, fact: MarkFact) -> Result<(), RangeRefusal>
        ensures answer { result ≡ marking (Self.meaning self.old) fact }
        ensures after { Self.meaning self.new ≡ marked_as (Self.meaning self.old) fact false }
        ensures held { holds self.old → holds self.new };
}
