// The operands of a command: words of the roll, or numbers taken as they are.
ghost use Rattle.std.specs.Prelude.{◌≡◌, IfErr};
ghost use Rattle.requests.specs.Operands.{behind_hash, operand};
ghost use Rattle.std.specs.Result.{result_ok};

use crate::number::byte_number;
use roll::list::List;
use roll::roll::Roll;

// The number that stands behind `#`, if the word is such a one.
fn hash_number(word: &[u8]) -> Option<u8>
    ensures { result ≡ behind_hash word.now }
{
    match word {
        [b'#', digits @ ..] => byte_number(digits),
        _ => None,
    }
}

// The number that an operand stands for: that behind `#`, or the word's in its list; else the word, which
// is unknown.
pub fn number_of<'a>(roll: Roll<'_>, list: List, word: &'a [u8]) -> Result<u8, &'a [u8]>
    ensures known { result_ok result ≡ operand roll.entry list word.now }
    ensures unknown { IfErr result (λ w. w.now ≡ word.now) }
{
    match hash_number(word) {
        Some(number) => Ok(number),
        None => roll.find(list, word).ok_or(word),
    }
}
