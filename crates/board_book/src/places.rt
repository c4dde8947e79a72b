// The bit of a tie.
ghost use Rattle.std.specs.Prelude.{◌≡◌, true};
ghost use Rattle.book.specs.Calls.{has, tie_within};
ghost use Rattle.marks.specs.MarkBoards.{counts_kept};
ghost use Rattle.book.specs.Meaning.{at3, with_ties};
ghost use Rattle.board_book.specs.TieBits.{place};
ghost use Rattle.board_book.specs.Boards.{board_meaning, words_held};

use crate::board::BoardBook;
use bits::rows::{is_set, replace};
use book::tie::Tie;

impl BoardBook {
    // The number of the tie's bit.
    pub(crate) fn place(&self, tie: Tie) -> usize
        ensures { result ≡ place (counts_kept self.now.marks).names tie.label tie.from tie.to }
    {
        let names = self.marks.counts().names as usize;
        (tie.label as usize * names + tie.from as usize) * names + tie.to as usize
    }

    // Whether the tie is there, where its numbers are in range.
    pub(crate) fn holds(&self, tie: Tie) -> bool
        ensures { tie_within (counts_kept self.now.marks) tie ≡ true → result ≡ has (board_meaning self.now) tie }
    {
        is_set(&self.words, self.place(tie))
    }

    // Puts the tie in, or takes it out.
    pub(crate) fn put_tie(&mut self, tie: Tie, value: bool)
        requires { tie_within (counts_kept self.old.marks) tie ≡ true }
        ensures after { board_meaning self.new ≡ with_ties (board_meaning self.old) (at3 (board_meaning self.old).tied tie.label tie.from tie.to value) }
        ensures long { words_held self.new ≡ words_held self.old }
    {
        let i = self.place(tie);
        let was = replace(&mut self.words, i, value);
        self.used = self.used + usize::from(value) - usize::from(was);
    }
}
