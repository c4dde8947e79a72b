ghost use Rattle.std.specs.Prelude.{◌≡◌};
ghost use Rattle.policy_reader.specs.Numbers.{cause_number, fault_number, fault_place};
ghost use Rattle.policy_reader.specs.Causes.{operand_cause};
ghost use Rattle.policy_reader.specs.declared.fault.PolicyFault.TheVariants.{Word as WordF};

use text::word::WordCause;

// What is wrong with one word by itself.
#[derive(Clone, Copy, Debug, PartialEq, Eq)]
pub enum Cause {
    // 5: there is no byte
    Empty,
    // 7: the sign is unknown, or `@` lacks its `?` or `#`
    Sign,
    // 4: a byte of the operand is not a-z, 0-9 or hyphen
    Byte,
    // 5: the operand is not 1 to 16 bytes, or a bare sign has one
    Length,
    // 6: the operand is not in its list
    Unlisted,
}

impl Cause {
    // The number by which the cause is told: 4 to 7.
    pub fn number(self) -> u8
        ensures { result ≡ cause_number self }
    {
        match self {
            Cause::Byte => 4,
            Cause::Empty | Cause::Length => 5,
            Cause::Unlisted => 6,
            Cause::Sign => 7,
        }
    }
}

// What is wrong with an operand as a word of a list.
impl From<WordCause> for Cause {
    ghost from_gives = { λ cause result. result ≡ operand_cause cause };

    fn from(cause: WordCause) -> Cause {
        match cause {
            WordCause::BadByte => Cause::Byte,
            WordCause::BadLength => Cause::Length,
        }
    }
}

// A faulty word: what is wrong with it, and the byte offset at which it begins.
pub type WordFault = text::word::WordFault<Cause>;

// Why a text is no policy's. Each case has the byte offset of the word; 9 has the text's length. The cases are those
// of a policy's words and more, with byte offsets in the place of the numbers of words: one type for both would give
// each some cases of the other.
#[derive(Clone, Copy, Debug, PartialEq, Eq)]
pub enum PolicyFault {
    // 4 to 7: a word is faulty by itself
    Word(WordFault),
    // 8: a path word where a formula is due, or the reverse
    Kind(usize),
    // 9: the text is over and a word is due
    Short(usize),
    // 10: a word after a finished policy
    After(usize),
    // 11: a 65th word
    TooMany(usize),
    // 12: the first word that names a letter outside every `$` of that letter
    Loose(usize),
    // 13: the first word that keeps the policy from being anchored
    Unanchored(usize),
}

impl PolicyFault {
    // The number by which the fault is told.
    pub fn number(self) -> u8
        ensures { result ≡ fault_number self }
    {
        match self {
            PolicyFault::Word(fault) => fault.cause.number(),
            PolicyFault::Kind(_) => 8,
            PolicyFault::Short(_) => 9,
            PolicyFault::After(_) => 10,
            PolicyFault::TooMany(_) => 11,
            PolicyFault::Loose(_) => 12,
            PolicyFault::Unanchored(_) => 13,
        }
    }

    // The byte offset that the fault tells.
    pub fn at(self) -> usize
        ensures { result ≡ fault_place self }
    {
        match self {
            PolicyFault::Word(fault) => fault.at,
            PolicyFault::Kind(at)
            | PolicyFault::Short(at)
            | PolicyFault::After(at)
            | PolicyFault::TooMany(at)
            | PolicyFault::Loose(at)
            | PolicyFault::Unanchored(at) => at,
        }
    }
}

impl From<WordFault> for PolicyFault {
    ghost from_gives = { λ fault result. result ≡ WordF fault };

    fn from(fault: WordFault) -> PolicyFault {
        PolicyFault::Word(fault)
    }
}
