ghost use Rattle.std.specs.Prelude.{◌≡◌, length, IfOk, Option};
ghost use Rattle.std.specs.Result.{result_err};
ghost use Rattle.text.specs.Text.{words};
ghost use Rattle.roll.specs.Numbers.{list_number, fault_number, fault_place};
ghost use Rattle.roll.specs.Lists.{alone, first_fault, list_fault, ListTold};
ghost use Rattle.roll.specs.declared.list.ListFault.TheVariants.{Word, CountOrRepeat};

use crate::lookup::{count_in, is_distinct};
use book::counts::{CountRefusal, Counts};
use text::pieces::Pieces;
use text::word::{WordCause, WordFault, check_word};

// Which of the three lists of a roll.
#[derive(Clone, Copy, Debug, PartialEq, Eq)]
pub enum List {
    Names,
    Labels,
    Marks,
}

// Why a list is refused.
#[derive(Clone, Copy, Debug, PartialEq, Eq)]
pub enum ListFault {
    // 4 or 5: a word is faulty by itself
    Word(WordFault<WordCause>),
    // 20: the count of words is outside its limits, or a word comes twice
    CountOrRepeat,
}

impl ListFault {
    // The number by which the fault is told.
    pub fn number(self) -> u8
        ensures { result ≡ fault_number self }
    {
        match self {
            ListFault::Word(fault) => fault.cause.number(),
            ListFault::CountOrRepeat => 20,
        }
    }

    // The byte offset of the faulty word, where a word is faulty.
    pub fn at(self) -> Option<usize>
        ensures { result ≡ fault_place self }
    {
        match self {
            ListFault::Word(fault) => Some(fault.at),
            ListFault::CountOrRepeat => None,
        }
    }
}

impl From<WordFault<WordCause>> for ListFault {
    ghost from_gives = { λ w r. r ≡ Word w };

    fn from(word: WordFault<WordCause>) -> ListFault {
        ListFault::Word(word)
    }
}

// The count of words is outside its limits.
impl From<CountRefusal> for ListFault {
    ghost from_gives = { λ refusal r. r ≡ CountOrRepeat };

    fn from(_refusal: CountRefusal) -> ListFault {
        Self::CountOrRepeat
    }
}

// Whether each word of the text is fine by itself: the first that is not decides.
fn check_words(text: &[u8]) -> Result<(), WordFault<WordCause>>
    ensures { result_err result ≡ first_fault 0 (words text.now) }
{
    for word in Pieces::words(text) {
        check_word(word.bytes).map_err(|cause| WordFault { cause, at: word.at })?;
    }
    Ok(())
}

impl List {
    // The number by which the list is told.
    pub fn number(self) -> u8
        ensures { result ≡ list_number self }
    {
        match self {
            List::Names => 0,
            List::Labels => 1,
            List::Marks => 2,
        }
    }

    // Counts of which this list has `count`, and the others as few as they may.
    fn alone(self, count: u8) -> Counts
        ensures { result ≡ alone self count }
    {
        match self {
            List::Names => Counts {
                names: count,
                ..Counts::LEAST
            },
            List::Labels => Counts {
                labels: count,
                ..Counts::LEAST
            },
            List::Marks => Counts {
                marks: count,
                ..Counts::LEAST
            },
        }
    }

    // How many words the text has, where it is a text of this list: the first faulty word decides,
    // and only where there is none the count and the words together.
    pub fn check(self, text: &[u8]) -> Result<u8, ListFault>
        ensures value { result_err result ≡ list_fault self (words text.now) }
        ensures count { IfOk result (λ n. n ≡ length (words text.now)) }
        ensures told { ListTold self (words text.now) (result_err result) }
        ensures only { (x : Option ListFault) → ListTold self (words text.now) x → x ≡ result_err result }
    {
        check_words(text)?;
        let count = count_in(text);
        self.alone(count).check()?;
        if !is_distinct(text) {
            return Err(ListFault::CountOrRepeat);
        }
        Ok(count)
    }
}
