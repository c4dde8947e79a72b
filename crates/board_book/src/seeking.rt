// The next of the neighbours of a name.
ghost use Rattle.std.specs.Prelude.{◌≡◌, true};
ghost use Rattle.book.specs.Calls.{next_within, joins};
ghost use Rattle.marks.specs.MarkBoards.{counts_kept};
ghost use Rattle.board_book.specs.Boards.{board_meaning};
ghost use Rattle.board_book.specs.Lowest.{Lowest};

use crate::board::BoardBook;
use bits::gather::gather;
use book::tie::{Direction, Neighbours};

impl BoardBook {
    // The lowest of the neighbours that is not below `at`, forward, where their bits stand side by side.
    pub(crate) fn next_to(&self, of: Neighbours, at: u8) -> Option<u8>
        requires forward { of.direction ≡ Direction.Forward }
        requires within { next_within (counts_kept self.now.marks) of at ≡ true }
        ensures { Lowest (joins (board_meaning self.now) of) at result }
    {
        let left = self.marks.counts().names - at;
        let zeros = gather(&self.words, self.place(of.tie(at))).trailing_zeros() as u8;
        (zeros < left).then_some(at + zeros)
    }

    // The lowest of the neighbours that is not below `at`, in either direction, bit by bit.
    pub(crate) fn next_from(&self, of: Neighbours, at: u8) -> Option<u8>
        requires { next_within (counts_kept self.now.marks) of at ≡ true }
        ensures { Lowest (joins (board_meaning self.now) of) at result }
    {
        (at..self.marks.counts().names).find(|&other| self.holds(of.tie(other)))
    }
}
