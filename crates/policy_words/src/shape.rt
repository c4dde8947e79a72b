ghost use Rattle.std.specs.Prelude.{◌≡◌};
ghost use Rattle.policy_words.specs.Shape.{Shaped, shape_number};
ghost use Rattle.policy_words.specs.Tree.{Unambiguous, PrefixFree};

use crate::due::Due;
use crate::word::Word;

// Why words are not those of a formula. Words have their places from 0.
#[derive(Clone, Copy, Debug, PartialEq, Eq)]
pub enum ShapeFault {
    // 8: the word at this place is a path's where a formula is due, or the reverse
    Kind(usize),
    // 9: the words are over and one is due
    Short,
    // 10: the word at this place follows a finished formula
    After(usize),
    // 11: there are more than 64 words
    TooMany,
}

impl ShapeFault {
    // The number by which the fault is told.
    pub fn number(self) -> u8
        ensures { result ≡ shape_number self }
    {
        match self {
            ShapeFault::Kind(_) => 8,
            ShapeFault::Short => 9,
            ShapeFault::After(_) => 10,
            ShapeFault::TooMany => 11,
        }
    }
}

// Whether the words are those of a formula, or which is the first that goes wrong. Words determine
// the formula, and no formula's words begin another's.
#[tactic(auto, using(crate::proofs::Unique::one_tree, crate::proofs::Unique::prefix_free))]
pub fn shape(words: &[Word]) -> Result<(), ShapeFault>
    ensures told { Shaped words.now result }
    ensures unambiguous { Unambiguous }
    ensures apart { PrefixFree }
{
    if words.len() > 64 {
        return Err(ShapeFault::TooMany);
    }
    let mut due = Due::FIRST;
    for (k, w) in words.iter().enumerate() {
        if due.is_empty() {
            return Err(ShapeFault::After(k));
        }
        due = due.after(*w).ok_or(ShapeFault::Kind(k))?;
    }
    if due.is_empty() {
        Ok(())
    } else {
        Err(ShapeFault::Short)
    }
}
