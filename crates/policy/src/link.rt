// From words to a table, in which a word with two operands has the number of its second.
ghost use Rattle.std.specs.Prelude.{◌≡◌, ℕ, ◌+◌, ◌<◌, ◌≤◌, List, ◌++◌, length, drop, slice_index_or};
ghost use Rattle.policy_words.specs.declared.word.Word.{Word as Item};
ghost use Rattle.policy_words.specs.declared.word.Word.TheVariants.{Name as NameItem};
ghost use Rattle.policy.specs.Table.{plain};
ghost use Rattle.policy.specs.Linking.{Tree, write, head, IsEntryAt};

use crate::entry::Entry;
use policy_words::word::Word;
use std::array;
use std::marker::Model;

// At most 64 words, of which a table is made.
#[derive(Drop)]
pub struct Words<'a> {
    pub list: &'a [Word],
}

impl<'a> Model for Words<'a> {
    ghost Value = { List Item };

    ghost view = { λ words. words.list.now };

    ghost invariant = { λ words. length words.list.now ≤ 64 };
}

impl Words<'_> {
    // The place just after the words of the formula or path that begins at `at`.
    fn end_of(&self, at: usize) -> usize
        ensures rises { at ≤ result }
        ensures within { at ≤ length self.now → result ≤ length self.now }
        ensures ends { (t : Tree) (rest : List Item) → drop at self.now ≡ write t ++ rest → result ≡ at + length (write t) }
    {
        let Some(word) = self.list.get(at) else {
            return at;
        };
        let mut next = at + 1;
        for _ in 0..word.operands() {
            next = self.end_of(next);
        }
        next
    }

    // The entry of the word at `at`; past the words that of `=`, of which nothing is asked, and which fills
    // the table.
    fn entry_at(&self, at: usize) -> Entry
        ensures { IsEntryAt self.now at result }
    {
        let Some(&word) = self.list.get(at) else {
            return Entry {
                word: Word::Stay,
                second: None,
            };
        };
        let second = if word.operands() == 2 {
            Some(self.end_of(at + 1) as u8)
        } else {
            None
        };
        Entry { word, second }
    }

    // The table of the words, of fixed size as a policy is.
    pub fn table(&self) -> [Entry; 64]
        ensures long { length result ≡ 64 }
        ensures entries { (k : ℕ) → k < 64 → IsEntryAt self.now k (slice_index_or result k (plain (NameItem 0))) }
    {
        array::from_fn(|k| self.entry_at(k))
    }
}
