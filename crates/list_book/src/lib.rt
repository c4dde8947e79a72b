// A book that keeps its ties in a row of the caller's.
#![tactic(auto)]

ghost use Rattle.std.specs.Prelude.{◌≤◌, take, vec_len};
ghost use Rattle.marks.specs.MarkBoards.{counts_kept};
ghost use Rattle.list_book.specs.Listed.{Once, Inside, Counted};

use book::tie::Tie;
use marks::mark_board::MarkBoard;

pub mod keeping;
pub mod making;
pub mod reading;

// A book whose ties stand in the first places of its row, each once. The row is its caller's, with places
// that the book never fills, so that how many it may fill and how many are filled stand beside it.
#[derive(Drop)]
pub struct ListBook {
    // the counts and the mark facts
    marks: MarkBoard,
    // the caller's row, whole
    row: Vec<Tie>,
    // how many places of the row the book may fill, from the first on
    limit: usize,
    // how many of them are filled
    used: usize,
    ghost room: { limit ≤ vec_len row },
    ghost front: { used ≤ limit },
    ghost once: { Once (take used row.items) },
    ghost inside: { Inside (counts_kept marks) (take used row.items) },
    ghost counted: { Counted (counts_kept marks) (take used row.items) used },
}
