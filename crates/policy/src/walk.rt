// Walks over a table, from a word to its operands: each operand's place is above the word's.
ghost use Rattle.std.specs.Prelude.{◌≡◌, true, false, MatchOption};
ghost use Rattle.policy_words.specs.Tree.{Formula, root};
ghost use Rattle.policy_words.specs.declared.word.Letter.{Letter as PolicyLetter};
ghost use Rattle.policy.specs.Letters.{has};
ghost use Rattle.policy.specs.Free.{free, later, first_loose};
ghost use Rattle.policy.specs.Anchor.{first_stray};
ghost use Rattle.policy.specs.Nodes.{Leads, AreOperands, HaveFewer, operands};
ghost use Rattle.policy.specs.Steps.{free_by, settled, set_by};

use crate::entry::Entry;
use crate::letters::Letters;
use crate::node::{Node, Operands};
use policy_words::word::{Letter, Word};

// What a word makes of the letters left free in its operands.
fn left_free(w: Word, inner: Letters) -> Letters
    ensures { (v : PolicyLetter) → has v result ≡ free_by v w (has v inner) }
{
    match w {
        Word::Letter(v) | Word::AtLetter(v) => inner.with(v),
        Word::Bind(v) => inner.without(v),
        _ => inner,
    }
}

// The letters that are set in the operands of the word, or none where the word names a letter that
// is not set.
fn set_under(w: Word, set: Letters) -> Option<Letters>
    ensures { MatchOption result (settled (λ v. has v set) w ≡ false) (λ inner. (settled (λ v. has v set) w ≡ true) × ((v : PolicyLetter) → has v inner ≡ set_by w (λ u. has u set) v)) }
{
    match w {
        Word::Letter(v) | Word::AtLetter(v) => set.contains(v).then_some(set),
        Word::Bind(v) => Some(set.with(v)),
        _ => Some(set),
    }
}

impl<'a> Node<'a> {
    // The word.
    #[tactic(auto, using(crate::proofs::Walks::within))]
    fn word(self) -> Word
        ensures { (f : Formula) → Leads self.entry f → result ≡ root f }
    {
        self.table[self.at].word
    }

    // The operands of the word that are formulas.
    #[tactic(auto, using(crate::proofs::Walks::within, crate::proofs::Walks::second_later, crate::proofs::Walks::second_stands, crate::proofs::Walks::next_stands))]
    fn operands(self) -> Operands<'a>
        ensures operands { (f : Formula) → Leads self.entry f → AreOperands self.entry (operands f) result }
        ensures fewer { HaveFewer self.entry result }
    {
        let Node { table, at } = self;
        let entry = table[at];
        match (entry.word.formulas(), entry.second) {
            (1, None) => Operands::One(Node { table, at: at + 1 }),
            (1, Some(second)) => Operands::One(Node {
                table,
                at: second.into(),
            }),
            (2, Some(second)) => Operands::Two(
                Node { table, at: at + 1 },
                Node {
                    table,
                    at: second.into(),
                },
            ),
            _ => Operands::Leaf,
        }
    }

    // The letters that the formula leaves free: the same question put to its operands.
    pub fn free_letters(self) -> Letters
        ensures { (f : Formula) → Leads self.entry f → (v : PolicyLetter) → has v result ≡ free v f }
    {
        let inner = match self.operands() {
            Operands::Leaf => Letters::NONE,
            Operands::One(f) => f.free_letters(),
            Operands::Two(f, g) => f.free_letters().union(g.free_letters()),
        };
        left_free(self.word(), inner)
    }

    // The place of the first loose word of the formula, where the letters of `set` are set. This and
    // `first_stray` are two searches: one for both would take a trait with laws and an enum of its
    // steps, to save one match. The second operand is asked in a match and not in `or_else`, whose
    // closure, being in a cycle of calls, would need the function's clause again.
    pub fn first_loose(self, set: Letters) -> Option<usize>
        ensures { (f : Formula) → Leads self.entry f → result ≡ later self.entry.at (first_loose (λ v. has v set) f) }
    {
        let Some(inner) = set_under(self.word(), set) else {
            return Some(self.at);
        };
        match self.operands() {
            Operands::Leaf => None,
            Operands::One(f) => f.first_loose(inner),
            Operands::Two(f, g) => match f.first_loose(inner) {
                None => g.first_loose(inner),
                found => found,
            },
        }
    }

    // The place of the first word that keeps the formula from being anchored.
    pub fn first_stray(self) -> Option<usize>
        ensures { (f : Formula) → Leads self.entry f → result ≡ later self.entry.at (first_stray f) }
    {
        match self.word() {
            Word::AtLetter(Letter::Requester | Letter::Resource) => return None,
            Word::Not | Word::And | Word::Or => {}
            _ => return Some(self.at),
        }
        match self.operands() {
            Operands::Leaf => None,
            Operands::One(f) => f.first_stray(),
            Operands::Two(f, g) => match f.first_stray() {
                None => g.first_stray(),
                found => found,
            },
        }
    }
}
