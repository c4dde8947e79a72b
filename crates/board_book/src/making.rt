// Making a board book, and taking it apart.
ghost use Rattle.std.specs.Prelude.{◌≡◌, ◌*◌, ◌≤◌, is_ok, vec_len, Decides};
ghost use Rattle.book.specs.Limits.{Within};
ghost use Rattle.board_book.specs.TieBits.{possible, TellTies, Clear};
ghost use Rattle.board_book.specs.Making.{fitting, fitted, needed, board_opened};
ghost use Rattle.board_book.specs.Boards.{board_meaning, words_held};

use crate::board::BoardBook;
use crate::refusal::BoardRefusal;
use book::counts::Counts;
use marks::mark_board::MarkBoard;

// The counts that a board is made with.
fn fitted_counts(counts: Counts, words: usize) -> Counts
    ensures { result ≡ fitted counts words }
{
    BoardBook::check(counts, words).map_or(Counts::LEAST, |()| counts)
}

// How many ties are possible.
pub(crate) fn possible_ties(counts: Counts) -> usize
    ensures { result ≡ possible counts }
{
    let names = counts.names as usize;
    counts.labels as usize * names * names
}

impl BoardBook {
    // Whether a board of these counts can be made over so many words. Counts and words stand apart, since
    // the one is a number of words here and the words themselves in `new`.
    pub fn check(counts: Counts, words: usize) -> Result<(), BoardRefusal>
        ensures answer { result ≡ fitting counts words }
        ensures fits { Decides (is_ok result) (Within counts × (possible counts ≤ words * 64)) }
    {
        counts.check()?;
        if Self::words_needed(counts) <= words {
            Ok(())
        } else {
            Err(BoardRefusal::FewWords)
        }
    }

    // How many words a board of these counts needs.
    pub fn words_needed(counts: Counts) -> usize
        ensures { result ≡ needed counts }
    {
        possible_ties(counts).div_ceil(64)
    }

    // A book without ties and mark facts over the words, which are cleared; of one name, no label and
    // no mark where the check fails.
    pub fn new(counts: Counts, mut words: Vec<u64>) -> BoardBook
        ensures empty { board_meaning result ≡ board_opened counts (vec_len words) }
        ensures long { words_held result ≡ vec_len words }
    {
        words.fill(0);
        let marks = MarkBoard::new(fitted_counts(counts, words.len()));
        BoardBook {
            marks,
            words,
            used: 0,
        }
    }

    // Takes the book apart and gives the words back.
    pub fn into_words(self) -> Vec<u64>
        ensures long { vec_len result ≡ words_held self }
        ensures ties { TellTies (board_meaning self) result.items }
        ensures rest { Clear (board_meaning self).counts result.items }
    {
        self.words
    }
}
