ghost use Rattle.std.specs.Prelude.{◌≡◌, Ok, Err, MatchOption, MatchResult};
ghost use Rattle.policy_words.specs.Tree.{Formula, EachAllowed};
ghost use Rattle.policy_words.specs.declared.word.Letter.{Letter as PolicyLetter};
ghost use Rattle.policy.specs.Letters.{has};
ghost use Rattle.policy.specs.Table.{Stands};
ghost use Rattle.policy.specs.Free.{free, First, ClosedIsFree};
ghost use Rattle.policy.specs.Anchor.{AnchoredIsAstrayNowhere};
ghost use Rattle.policy.specs.Proper.{Proper};
ghost use Rattle.policy.specs.Policies.{entries_of, Means, Makes, Forbidden, built_in};

use super::Policy;
use crate::entry::Entry;
use crate::fault::WordsFault;
use crate::letters::Letters;
use crate::link::Words;
use crate::node::Node;
use policy_words::shape::shape;
use policy_words::word::{Letter, Word};

// The first word with a number that no name, label or mark can have, or that sets q or r.
fn first_forbidden(words: &[Word]) -> Option<usize>
    ensures { MatchOption result (EachAllowed words.now) (λ k. First (Forbidden words.now) k) }
{
    words.iter().position(|w| !w.is_allowed())
}

// The policy of these words, or why they make none: the first word that goes wrong as a formula's,
// then a number, then a loose letter, then the anchors.
impl TryFrom<&[Word]> for Policy {
    type Error = WordsFault;

    ghost try_from_gives = { λ ws r. MatchResult r (λ p. ((f : Formula) × Makes ws.now (Ok f) × Means p f)) (λ e. Makes ws.now (Err e)) };

    fn try_from(words: &[Word]) -> Result<Policy, WordsFault> {
        shape(words)?;
        if let Some(k) = first_forbidden(words) {
            return Err(WordsFault::Number(k));
        }
        let table = Words { list: words }.table();
        let len = words.len();
        let formula = Node {
            table: &table[..len],
            at: 0,
        };
        if let Some(k) = formula.first_loose(Letters::GIVEN) {
            return Err(WordsFault::Loose(k));
        }
        if let Some(k) = formula.first_stray() {
            return Err(WordsFault::Unanchored(k));
        }
        Ok(Policy { table, len })
    }
}

impl Policy {
    // The built-in policy `! @?q ?q`.
    pub fn built_in() -> Policy
        ensures { Means result built_in }
    {
        let mut table = [Entry {
            word: Word::Not,
            second: None,
        }; 64];
        table[1].word = Word::AtLetter(Letter::Requester);
        table[2].word = Word::Letter(Letter::Requester);
        Policy { table, len: 3 }
    }

    // The table of the policy, one entry for each word. It is that of one formula, which is closed
    // and anchored and stands in it from its first word on. Closed are the formulas that leave at
    // most q and r free, anchored those in which no word is astray.
    pub fn table(&self) -> &[Entry]
        ensures value { result.now ≡ entries_of self.now }
        ensures known { (f : Formula) × Means self.now f × Proper f × Stands (entries_of self.now) 0 f × ((g : Formula) → Means self.now g → g ≡ f) }
        ensures closed { ClosedIsFree }
        ensures anchored { AnchoredIsAstrayNowhere }
    {
        &self.table[..self.len]
    }

    // The letters that the policy leaves free.
    pub fn free_letters(&self) -> Letters
        ensures { (f : Formula) × Means self.now f × ((v : PolicyLetter) → has v result ≡ free v f) }
    {
        let formula = Node {
            table: self.table(),
            at: 0,
        };
        formula.free_letters()
    }
}
