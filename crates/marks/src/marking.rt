// The mark facts of a book.
ghost use Rattle.std.specs.Prelude.{◌≡◌, ◌+◌, ◌*◌, false, if◌then◌else◌};
ghost use Rattle.book.specs.Calls.{mark_within, ranged};
ghost use Rattle.book.specs.Meaning.{at2, count2};
ghost use Rattle.book.specs.Limits.{made_counts};
ghost use Rattle.marks.specs.MarkBoards.{counts_kept, marks_kept};

use crate::mark_board::MarkBoard;
use bits::rows::{is_set, replace};
use book::counts::Counts;
use book::mark::MarkFact;
use book::refusal::RangeRefusal;

// The number of the mark fact's bit.
fn place(fact: MarkFact) -> usize
    ensures { result ≡ 64 * fact.mark + fact.name }
{
    64 * fact.mark as usize + fact.name as usize
}

impl MarkBoard {
    // A board without mark facts, of these counts; of one name, no label and no mark where they are
    // outside their limits.
    pub fn new(counts: Counts) -> MarkBoard
        ensures counts { counts_kept result ≡ made_counts counts }
        ensures none { marks_kept result ≡ (λ _ _. false) }
    {
        MarkBoard {
            counts: counts.or_least(),
            words: [0; 16],
            used: 0,
        }
    }

    // How many names, labels and marks there are.
    pub fn counts(&self) -> Counts
        ensures { result ≡ counts_kept self.now }
    {
        self.counts
    }

    // How many mark facts there are.
    pub fn mark_count(&self) -> usize
        ensures { result ≡ count2 (counts_kept self.now).marks (counts_kept self.now).names (marks_kept self.now) }
    {
        self.used
    }

    // Whether the name has the mark.
    pub fn has_mark(&self, fact: MarkFact) -> Result<bool, RangeRefusal>
        ensures { result ≡ (if mark_within (counts_kept self.now) fact then Ok (marks_kept self.now fact.mark fact.name) else Err RangeRefusal.OutOfRange) }
    {
        self.counts.check_mark(fact)?;
        Ok(is_set(&self.words, place(fact)))
    }

    // Gives the name the mark, or takes it from it.
    pub fn put_mark(&mut self, fact: MarkFact, value: bool) -> Result<(), RangeRefusal>
        ensures answer { result ≡ ranged (mark_within (counts_kept self.old) fact) }
        ensures counts { counts_kept self.new ≡ counts_kept self.old }
        ensures after { marks_kept self.new ≡ (if mark_within (counts_kept self.old) fact then at2 (marks_kept self.old) fact.mark fact.name value else marks_kept self.old) }
    {
        self.counts.check_mark(fact)?;
        let was = replace(&mut self.words, place(fact), value);
        self.used = self.used + usize::from(value) - usize::from(was);
        Ok(())
    }
}
