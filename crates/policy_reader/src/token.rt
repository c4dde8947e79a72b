ghost use Rattle.std.specs.Prelude.{◌≡◌, ◌++◌, MatchResult};
ghost use Rattle.policy_reader.specs.Token.{mark, sign, operand, Unsigned};

use crate::fault::{Cause, WordFault};
use text::pieces::Piece;

// An operand, which is a part of the text, and the byte offset at which its word begins. It is no
// `Piece`, since it does not begin at that byte: its word's sign does.
#[derive(Clone, Copy)]
pub struct Operand<'a> {
    pub bytes: &'a [u8],
    pub at: usize,
}

// A word cut into its sign and its operand, a case for each sign and the operand in each, so that a word of a policy
// is made of a token sign by sign.
#[derive(Clone, Copy)]
pub enum Token<'a> {
    Name(Operand<'a>),
    Letter(Operand<'a>),
    Mark(Operand<'a>),
    Not(Operand<'a>),
    And(Operand<'a>),
    Or(Operand<'a>),
    AtLetter(Operand<'a>),
    AtName(Operand<'a>),
    Bind(Operand<'a>),
    Follow(Operand<'a>),
    Forward(Operand<'a>),
    Backward(Operand<'a>),
    Seq(Operand<'a>),
    Plus(Operand<'a>),
    Stay(Operand<'a>),
}

impl<'a> Operand<'a> {
    // The fault of the operand's word.
    pub fn fault(self, cause: Cause) -> WordFault
        ensures { result ≡ record { cause = cause; at = self.entry.at } }
    {
        WordFault { cause, at: self.at }
    }
}

// A word is cut after its sign.
impl<'a> TryFrom<Piece<'a>> for Token<'a> {
    type Error = WordFault;

    ghost try_from_gives = { λ word result. MatchResult result
        (λ t. (word.bytes.now ≡ mark (sign t) ++ (operand t).bytes.now) × ((operand t).at ≡ word.at))
        (λ f. (f.at ≡ word.at) × Unsigned word.bytes.now f.cause) };

    fn try_from(word: Piece<'a>) -> Result<Token<'a>, WordFault> {
        let operand = |bytes| Operand { bytes, at: word.at };
        match word.bytes {
            [] => Err(operand(word.bytes).fault(Cause::Empty)),
            [b'@', second, rest @ ..] => match *second as char {
                '?' => Ok(Token::AtLetter(operand(rest))),
                '#' => Ok(Token::AtName(operand(rest))),
                _ => Err(operand(rest).fault(Cause::Sign)),
            },
            [sign, rest @ ..] => match *sign as char {
                '#' => Ok(Token::Name(operand(rest))),
                '?' => Ok(Token::Letter(operand(rest))),
                '%' => Ok(Token::Mark(operand(rest))),
                '!' => Ok(Token::Not(operand(rest))),
                '&' => Ok(Token::And(operand(rest))),
                ':' => Ok(Token::Or(operand(rest))),
                '$' => Ok(Token::Bind(operand(rest))),
                '/' => Ok(Token::Follow(operand(rest))),
                '>' => Ok(Token::Forward(operand(rest))),
                '<' => Ok(Token::Backward(operand(rest))),
                ';' => Ok(Token::Seq(operand(rest))),
                '+' => Ok(Token::Plus(operand(rest))),
                '=' => Ok(Token::Stay(operand(rest))),
                _ => Err(operand(rest).fault(Cause::Sign)),
            },
        }
    }
}
