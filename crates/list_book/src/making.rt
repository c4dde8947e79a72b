// The making of a list book, and taking it apart.
ghost use Rattle.std.specs.Prelude.{◌≡◌, vec_len};
ghost use Rattle.book.specs.Limits.{checked};
ghost use Rattle.list_book.specs.Listed.{HoldsTies};
ghost use Rattle.list_book.specs.ListBooks.{list_meaning, made_meaning, row_items};

use crate::ListBook;
use book::counts::{CountRefusal, Counts};
use book::tie::Tie;
use marks::mark_board::MarkBoard;

impl ListBook {
    // The most ties that a list book holds, however long its row is.
    pub const MOST_TIES: usize = 4096;

    // Whether a book of these counts can be made.
    pub fn check(counts: Counts) -> Result<(), CountRefusal>
        ensures { result ≡ checked counts }
    {
        counts.check()
    }

    // A book without ties and mark facts over the row: of these counts and with as many places as the
    // row has, at most 4,096; of one name, no label, no mark and no place where the counts are refused.
    // The row stays as it was handed over.
    pub fn new(counts: Counts, row: Vec<Tie>) -> ListBook
        ensures meaning { list_meaning result ≡ made_meaning counts (vec_len row) }
        ensures row { row_items result ≡ row.items }
    {
        let limit = Self::limit_of(counts, row.len());
        ListBook {
            marks: MarkBoard::new(counts),
            row,
            limit,
            used: 0,
        }
    }

    // How many places a book of these counts may fill of a row with so many.
    fn limit_of(counts: Counts, places: usize) -> usize
        ensures { result ≡ (made_meaning counts places).capacity }
    {
        Self::check(counts).map_or(0, |()| places.min(Self::MOST_TIES))
    }

    // Takes the book apart and gives its row back, whole and as it stands. The first places, as many as
    // there are ties, hold the ties, each once.
    pub fn into_row(self) -> Vec<Tie>
        ensures row { result.items ≡ row_items self }
        ensures ties { HoldsTies (list_meaning self) result.items }
    {
        self.row
    }
}
