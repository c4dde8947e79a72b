// What every make of a book keeps in the same way: its counts, and one bit for each possible mark fact.
ghost use Rattle.book.specs.Limits.{Within};
ghost use Rattle.marks.specs.MarkBits.{CountedMarks};

use book::counts::Counts;

// The number stands beside the words here and in the board book. It counts facts within the counts, by pairs here and
// by triples there, and one type for both, of an array here and a vector there, would count bits and need a lemma more.
#[derive(Drop)]
pub struct MarkBoard {
    pub(crate) counts: Counts,
    // bit 64 * mark + name: whether the name has the mark; of fixed size, since books allocate nothing
    pub(crate) words: [u64; 16],
    // how many mark facts there are
    pub(crate) used: usize,
    ghost within: { Within counts },
    ghost counted: { CountedMarks counts words used },
}
