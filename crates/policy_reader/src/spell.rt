// Words under a roll.
ghost use Rattle.std.specs.Prelude.{◌≡◌, true, false, [], MatchResult};
ghost use Rattle.text.specs.Word.{Fine};
ghost use Rattle.policy_words.specs.Letters.{letter_text};
ghost use Rattle.policy_words.specs.Tree.{Settable};
ghost use Rattle.policy_reader.specs.Token.{sign, operand};
ghost use Rattle.policy_reader.specs.Spell.{Numbered, IsOperand, Spells, sign_of, bare, Listed, Wrong};
ghost use Rattle.policy_reader.specs.Operands.{IsFaultOf, ReadAs};

use crate::fault::{Cause, WordFault};
use crate::token::{Operand, Token};
use policy_words::word::{Letter, Word};
use roll::list::List;
use roll::roll::Roll;
use text::pieces::Piece;
use text::word::{check_word, is_plain};

impl<'a> Operand<'a> {
    // The word of a bare sign: it has no operand.
    fn bare(self, word: Word) -> Result<Word, WordFault>
        ensures { ReadAs true self.entry (λ w. (w ≡ word) × (self.entry.bytes.now ≡ [])) result }
    {
        if !is_plain(self.bytes) {
            return Err(self.fault(Cause::Byte));
        }
        if !self.bytes.is_empty() {
            return Err(self.fault(Cause::Length));
        }
        Ok(word)
    }

    // Refuses an operand that no list can have.
    fn check(self) -> Result<(), WordFault>
        ensures { ReadAs false self.entry (λ _. Fine self.entry.bytes.now) result }
    {
        check_word(self.bytes).map_err(|cause| WordFault {
            cause: cause.into(),
            at: self.at,
        })
    }

    // The number of an operand in its list.
    #[tactic(auto, using(crate::proofs::Limits::number_read))]
    fn number_in(self, roll: &Roll, list: List) -> Result<u8, WordFault>
        ensures { ReadAs false self.entry (λ n. Numbered roll.now list self.entry.bytes.now n) result }
    {
        self.check()?;
        roll.find(list, self.bytes)
            .ok_or(self.fault(Cause::Unlisted))
    }

    // The letter of an operand.
    fn letter(self) -> Result<Letter, WordFault>
        ensures { ReadAs false self.entry (λ v. self.entry.bytes.now ≡ letter_text v) result }
    {
        self.check()?;
        let fault = self.fault(Cause::Unlisted);
        Letter::try_from(self.bytes).map_err(|_| fault)
    }

    // The letter of an operand, where a `$` can set it.
    fn settable(self) -> Result<Letter, WordFault>
        ensures { ReadAs false self.entry (λ v. Settable v × (self.entry.bytes.now ≡ letter_text v)) result }
    {
        match self.letter()? {
            letter @ (Letter::A | Letter::B) => Ok(letter),
            Letter::Requester | Letter::Resource => Err(self.fault(Cause::Unlisted)),
        }
    }
}

impl<'a> Token<'a> {
    // The word that the token stands for under the roll.
    fn word(self, roll: &Roll) -> Result<Word, WordFault>
        ensures { MatchResult result
            (λ w. (sign_of w ≡ sign self.entry) × IsOperand roll.now w (operand self.entry).bytes.now)
            (IsFaultOf (bare (sign self.entry)) (operand self.entry)
            (Listed roll.now (sign self.entry) (operand self.entry).bytes.now)) }
    {
        match self {
            Token::Name(operand) => operand.number_in(roll, List::Names).map(Word::Name),
            Token::Letter(operand) => operand.letter().map(Word::Letter),
            Token::Mark(operand) => operand.number_in(roll, List::Marks).map(Word::Mark),
            Token::Not(operand) => operand.bare(Word::Not),
            Token::And(operand) => operand.bare(Word::And),
            Token::Or(operand) => operand.bare(Word::Or),
            Token::AtLetter(operand) => operand.letter().map(Word::AtLetter),
            Token::AtName(operand) => operand.number_in(roll, List::Names).map(Word::AtName),
            Token::Bind(operand) => operand.settable().map(Word::Bind),
            Token::Follow(operand) => operand.bare(Word::Follow),
            Token::Forward(operand) => operand.number_in(roll, List::Labels).map(Word::Forward),
            Token::Backward(operand) => operand.number_in(roll, List::Labels).map(Word::Backward),
            Token::Seq(operand) => operand.bare(Word::Seq),
            Token::Plus(operand) => operand.bare(Word::Plus),
            Token::Stay(operand) => operand.bare(Word::Stay),
        }
    }
}

// The word that the bytes spell, or what is wrong with them.
pub fn read_word(roll: &Roll, word: Piece) -> Result<Word, WordFault>
    ensures { MatchResult result
        (λ w. Spells roll.now w word.entry.bytes.now)
        (λ f. (f.at ≡ word.entry.at) × Wrong roll.now word.entry.bytes.now f.cause) }
{
    Token::try_from(word)?.word(roll)
}
