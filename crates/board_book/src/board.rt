// A book that keeps one bit for each possible tie.
ghost use Rattle.std.specs.Prelude.{◌*◌, ◌≤◌, vec_len};
ghost use Rattle.marks.specs.MarkBoards.{counts_kept};
ghost use Rattle.board_book.specs.TieBits.{possible, CountedTies, Clear};

use marks::mark_board::MarkBoard;

#[derive(Drop)]
pub struct BoardBook {
    pub(crate) marks: MarkBoard,
    // bit (label * names + from) * names + to: whether the tie is there
    pub(crate) words: Vec<u64>,
    // how many ties there are
    pub(crate) used: usize,
    ghost enough: { possible (counts_kept marks) ≤ vec_len words * 64 },
    ghost counted: { CountedTies (counts_kept marks) words.items used },
    ghost clear: { Clear (counts_kept marks) words.items },
}
