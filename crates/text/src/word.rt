ghost use Rattle.std.specs.Prelude.{◌≡◌, Decides, MatchResult};
ghost use Rattle.std.specs.Result.{result_err};
ghost use Rattle.text.specs.Word.{plain_byte, plain, cause_of, cause_number, Plain, Fine, Wrong};

// What is wrong with a word by itself.
#[derive(Clone, Copy, Debug, PartialEq, Eq)]
pub enum WordCause {
    // 4: a byte is not a-z, 0-9 or hyphen
    BadByte,
    // 5: the word is not 1 to 16 bytes
    BadLength,
}

// A faulty word of a text: what is wrong with it, and the byte offset at which it begins.
#[derive(Clone, Copy, Debug, PartialEq, Eq)]
pub struct WordFault<C> {
    pub cause: C,
    pub at: usize,
}

impl WordCause {
    // The number by which the cause is told.
    pub fn number(self) -> u8
        ensures { result ≡ cause_number self }
    {
        match self {
            WordCause::BadByte => 4,
            WordCause::BadLength => 5,
        }
    }
}

// Whether the byte is a-z, 0-9 or hyphen.
fn is_plain_byte(b: u8) -> bool
    ensures { result ≡ plain_byte b }
{
    matches!(b, b'a'..=b'z' | b'0'..=b'9' | b'-')
}

// Whether each byte is a-z, 0-9 or hyphen.
pub fn is_plain(bytes: &[u8]) -> bool
    ensures value { result ≡ plain bytes.now }
    ensures means { Decides result (Plain bytes.now) }
{
    bytes.iter().all(|b| is_plain_byte(*b))
}

// Refuses a word that is faulty by itself: a bad byte comes before a bad length.
pub fn check_word(word: &[u8]) -> Result<(), WordCause>
    ensures value { result_err result ≡ cause_of word.now }
    ensures means { MatchResult result (λ _. Fine word.now) (λ c. Wrong word.now c) }
{
    if !is_plain(word) {
        return Err(WordCause::BadByte);
    }
    if word.is_empty() || word.len() > 16 {
        return Err(WordCause::BadLength);
    }
    Ok(())
}
