ghost use Rattle.std.specs.Prelude.{◌≡◌, ◌≢◌, ◌+◌, true, false, Decides, MatchResult};
ghost use Rattle.policy_words.specs.Due.{paths_of, formulas_of};
ghost use Rattle.policy_words.specs.Letters.{letter_text};
ghost use Rattle.policy_words.specs.Tree.{is_path, allowed, Allowed};

// A letter of a policy: the requester (q), the resource (r), or one that a `$` sets (a and b).
#[derive(Clone, Copy, Debug, PartialEq, Eq)]
pub enum Letter {
    Requester,
    Resource,
    A,
    B,
}

// Some bytes are no letter's text.
#[derive(Clone, Copy, Debug, PartialEq, Eq)]
pub struct NotALetter;

// The letter whose text the bytes are.
impl TryFrom<&[u8]> for Letter {
    ghost use Rattle.policy_words.specs.declared.word.Letter.{Letter as PolicyLetter};

    type Error = NotALetter;

    ghost try_from_gives = { λ bs r. MatchResult r (λ v. bs.now ≡ letter_text v) (λ _. (v : PolicyLetter) → bs.now ≢ letter_text v) };

    fn try_from(bytes: &[u8]) -> Result<Letter, NotALetter> {
        match bytes {
            b"q" => Ok(Letter::Requester),
            b"r" => Ok(Letter::Resource),
            b"a" => Ok(Letter::A),
            b"b" => Ok(Letter::B),
            _ => Err(NotALetter),
        }
    }
}

// One word of a policy: its sign, and its operand as a number or a letter.
#[derive(Clone, Copy, Debug, Default, PartialEq, Eq)]
pub enum Word {
    // `#c`: the name c
    Name(u8),
    // `?v`: the name of the letter v
    Letter(Letter),
    // `%m`: a name that has the mark m
    Mark(u8),
    // `!`
    Not,
    // `&`
    And,
    // `:`
    Or,
    // `@?v`: at the name of the letter v
    AtLetter(Letter),
    // `@#c`: at the name c
    AtName(u8),
    // `$v`: with the letter v set
    Bind(Letter),
    // `/`: at some name along a path
    Follow,
    // `>l`: along a tie l
    Forward(u8),
    // `<l`: against a tie l
    Backward(u8),
    // `;`: one path, then another
    Seq,
    // `+`: a path once or more
    Plus,
    // `=`: the empty path, and the default
    #[default]
    Stay,
}

impl Word {
    // Whether the word begins a path; any other begins a formula.
    pub fn is_path(self) -> bool
        ensures { result ≡ is_path self }
    {
        matches!(
            self,
            Word::Forward(_) | Word::Backward(_) | Word::Seq | Word::Plus | Word::Stay
        )
    }

    // How many operands the word takes, paths and formulas.
    pub fn operands(self) -> u8
        ensures { result ≡ paths_of self + formulas_of self }
    {
        match self {
            Word::Not | Word::AtLetter(_) | Word::AtName(_) | Word::Bind(_) | Word::Plus => 1,
            Word::And | Word::Or | Word::Follow | Word::Seq => 2,
            _ => 0,
        }
    }

    // How many operands of the word are formulas.
    pub fn formulas(self) -> u8
        ensures { result ≡ formulas_of self }
    {
        match self {
            Word::Not | Word::AtLetter(_) | Word::AtName(_) | Word::Bind(_) | Word::Follow => 1,
            Word::And | Word::Or => 2,
            _ => 0,
        }
    }

    // Whether its name number is below 64, its label or mark number below 16, and the letter that
    // it sets a or b.
    pub fn is_allowed(self) -> bool
        ensures value { result ≡ allowed self }
        ensures means { Decides result (Allowed self) }
    {
        match self {
            Word::Name(n) | Word::AtName(n) => n < 64,
            Word::Mark(n) | Word::Forward(n) | Word::Backward(n) => n < 16,
            Word::Bind(Letter::Requester | Letter::Resource) => false,
            _ => true,
        }
    }
}
