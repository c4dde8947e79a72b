ghost use Rattle.std.specs.Prelude.{◌≡◌, ℕ, ◌<◌, ◌≤◌, length, IfOk, Some, None, Option, MatchOption, MatchResult, ◌≢◌};
ghost use Rattle.std.specs.Option.{option_map};
ghost use Rattle.std.specs.Result.{result_err};
ghost use Rattle.book.specs.Limits.{Within};
ghost use Rattle.text.specs.Text.{words};
ghost use Rattle.roll.specs.Lists.{list_fault};
ghost use Rattle.roll.specs.Numbers.{roll_number, roll_place};
ghost use Rattle.roll.specs.Rolls.{text_of, words_of, Sound, roll_fault, RollTold, counts_of, number_of, word_of};

use super::{Roll, RollFault};
use crate::list::List;
use crate::lookup::{count_in, number_in, word_in};
use book::counts::Counts;

impl RollFault {
    // The number by which the fault is told: 4, 5 or 20.
    pub fn number(self) -> u8
        ensures { result ≡ roll_number self }
    {
        self.fault.number()
    }

    // The byte offset of the faulty word in its text; none for 20.
    pub fn at(self) -> Option<usize>
        ensures { result ≡ roll_place self }
    {
        self.fault.at()
    }
}

// Refuses a text that does not make this list of a roll.
fn check_list(list: List, text: &[u8]) -> Result<(), RollFault>
    ensures { MatchResult result (λ _. list_fault list (words text.now) ≡ None) (λ f. (f.list ≡ list) × (list_fault list (words text.now) ≡ Some f.fault)) }
{
    list.check(text).map_err(|fault| RollFault { list, fault })?;
    Ok(())
}

impl<'a> Roll<'a> {
    // Reads three texts, each in turn: the first faulty one decides.
    #[tactic(auto, using(crate::proofs::Rolls::roll_as_told))]
    pub fn read(names: &'a [u8], labels: &'a [u8], marks: &'a [u8]) -> Result<Roll<'a>, RollFault>
        ensures value { result_err result ≡ roll_fault names.now labels.now marks.now }
        ensures holds { IfOk result (λ roll. (roll.names ≡ names.entry) × (roll.labels ≡ labels.entry) × (roll.marks ≡ marks.entry)) }
        ensures sound { IfOk result (λ roll. Sound roll) }
        ensures told { RollTold names.now labels.now marks.now (result_err result) }
        ensures only { (x : Option RollFault) → RollTold names.now labels.now marks.now x → x ≡ result_err result }
    {
        check_list(List::Names, names)?;
        check_list(List::Labels, labels)?;
        check_list(List::Marks, marks)?;
        Ok(Roll {
            names,
            labels,
            marks,
        })
    }

    // The text of a list.
    pub fn text(&self, list: List) -> &'a [u8]
        ensures { result.now ≡ text_of self.now list }
    {
        match list {
            List::Names => self.names,
            List::Labels => self.labels,
            List::Marks => self.marks,
        }
    }

    // How many words each list has. They are within their limits.
    pub fn counts(&self) -> Counts
        ensures value { result ≡ counts_of self.now }
        ensures within { Within result }
        ensures names { result.names ≡ length (words_of self.now List.Names) }
        ensures labels { result.labels ≡ length (words_of self.now List.Labels) }
        ensures marks { result.marks ≡ length (words_of self.now List.Marks) }
    {
        Counts {
            names: count_in(self.names),
            labels: count_in(self.labels),
            marks: count_in(self.marks),
        }
    }

    // The number of a word in a list. The word of that number is that word, and no other number has
    // it.
    pub fn find(&self, list: List, word: &[u8]) -> Option<u8>
        ensures value { result ≡ number_of self.now list word.now }
        ensures back { MatchOption result ((n : ℕ) → word_of self.now list n ≢ Some word.now) (λ n. word_of self.now list n ≡ Some word.now) }
        ensures again { (n : ℕ) → word_of self.now list n ≡ Some word.now → result ≡ Some n }
    {
        number_in(self.text(list), word)
    }

    // The word of a number in a list. Each number below the count has a word, and the number of
    // that word is that number.
    pub fn word(&self, list: List, number: u8) -> Option<&'a [u8]>
        ensures value { option_map (λ x. x.now) result ≡ word_of self.now list number }
        ensures there { MatchOption result (length (words_of self.now list) ≤ number) (λ w. (number < length (words_of self.now list)) × (number_of self.now list w.now ≡ Some number)) }
    {
        word_in(self.text(list), number)
    }
}
