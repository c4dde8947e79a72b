ghost use Rattle.std.specs.Prelude.{◌≡◌};
ghost use Rattle.policy.specs.declared.fault.WordsFault.TheVariants.{Shape};
ghost use Rattle.policy.specs.Numbers.{fault_number};

use policy_words::shape::ShapeFault;

// Why words make no policy. Words have their places from 0.
#[derive(Clone, Copy, Debug, PartialEq, Eq)]
pub enum WordsFault {
    // 8 to 11: they are not the words of a formula of at most 64
    Shape(ShapeFault),
    // 1: the word at this place has a number that no name, label or mark can have, or sets a letter
    // that none can set
    Number(usize),
    // 12: the word at this place names a letter outside every `$` of that letter
    Loose(usize),
    // 13: the policy is not anchored, by the word at this place
    Unanchored(usize),
}

impl WordsFault {
    // The number by which the fault is told.
    pub fn number(self) -> u8
        ensures { result ≡ fault_number self }
    {
        match self {
            WordsFault::Shape(fault) => fault.number(),
            WordsFault::Number(_) => 1,
            WordsFault::Loose(_) => 12,
            WordsFault::Unanchored(_) => 13,
        }
    }
}

impl From<ShapeFault> for WordsFault {
    ghost from_gives = { λ s r. r ≡ Shape s };

    fn from(fault: ShapeFault) -> WordsFault {
        WordsFault::Shape(fault)
    }
}
