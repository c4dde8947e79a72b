ghost use Rattle.std.specs.Prelude.{◌≡◌, length, Ok, Err, Result as Outcome};
ghost use Rattle.roll.specs.Rolls.{counts_of};
ghost use Rattle.policy_words.specs.Tree.{Formula, words};
ghost use Rattle.policy_reader.specs.Ends.{after_fault, short_fault, ShapeRefused, Refused};
ghost use Rattle.policy_reader.specs.Told.{Gave, Told, EachBelow};

use crate::fault::PolicyFault;
use crate::found::{Found, find_words};
use policy::fault::WordsFault;
use policy::policy::Policy;
use policy_words::shape::ShapeFault;
use roll::roll::Roll;

impl<'a> Found<'a> {
    // After a finished formula the text has to be over.
    fn finished(&self) -> Result<(), PolicyFault>
        ensures { result ≡ after_fault self.now.stop }
    {
        match self.stop {
            Ok(None) => Ok(()),
            Ok(Some(at)) => Err(PolicyFault::After(at)),
            Err(fault) => Err(PolicyFault::After(fault.at)),
        }
    }

    // Refuses a text whose formula is not finished. This and the next two give a result that is always an
    // error, so that a word fault passes into a policy fault whole, by `?`.
    fn short(&self) -> Result<Policy, PolicyFault>
        ensures { result ≡ Err (short_fault (length self.now.text.now) self.now.stop) }
    {
        match self.stop? {
            None => Err(PolicyFault::Short(self.text.len())),
            Some(at) => Err(PolicyFault::TooMany(at)),
        }
    }

    // Refuses a text whose words make no formula; they are never more than 64.
    fn misshapen(&self, fault: ShapeFault) -> Result<Policy, PolicyFault>
        ensures { ShapeRefused self.now fault result }
    {
        match fault {
            ShapeFault::Kind(k) => Err(PolicyFault::Kind(self.start_of(k))),
            ShapeFault::After(k) => Err(PolicyFault::After(self.start_of(k))),
            ShapeFault::Short | ShapeFault::TooMany => self.short(),
        }
    }

    // Refuses a text whose words make no policy; a word that was read has a number that it can
    // have.
    fn refused(&self, fault: WordsFault) -> Result<Policy, PolicyFault>
        ensures { Refused self.now fault result }
    {
        match fault {
            WordsFault::Shape(shape) => self.misshapen(shape),
            WordsFault::Number(k) | WordsFault::Loose(k) => {
                self.finished()?;
                Err(PolicyFault::Loose(self.start_of(k)))
            }
            WordsFault::Unanchored(k) => {
                self.finished()?;
                Err(PolicyFault::Unanchored(self.start_of(k)))
            }
        }
    }
}

// The policy that the text spells under the roll, or the first fault: of its words from the left,
// then of its end, then of its letters, then of its anchors. For every roll and every text exactly
// one answer is to be told, and it is given. The numbers of the formula's words are below the
// counts of the roll.
pub fn read(roll: &Roll, text: &[u8]) -> Result<Policy, PolicyFault>
    ensures told { (x : Outcome Formula PolicyFault) × Gave result x × Told roll.now text.now x }
    ensures only { (x : Outcome Formula PolicyFault) → Told roll.now text.now x → Gave result x }
    ensures counted { (f : Formula) → Told roll.now text.now (Ok f) → EachBelow (counts_of roll.now) (words f) }
{
    let found = find_words(roll, text);
    match Policy::try_from(found.words.as_slice()) {
        Ok(policy) => {
            found.finished()?;
            Ok(policy)
        }
        Err(fault) => found.refused(fault),
    }
}
