// Look-up in the words of a text, of which the first 64 have numbers. The text is handed to each: it is what the
// functions are about, as a `self` would be, and carries no fact.
ghost use Rattle.std.specs.Prelude.{◌≡◌, ◌≢◌, ◌<◌, min, length, take, Decides, IfSome, All};
ghost use Rattle.std.specs.Option.{option_map};
ghost use Rattle.std.specs.List.{slice_get};
ghost use Rattle.text.specs.Text.{words};
ghost use Rattle.roll.specs.Lists.{numbered, place_of, Distinct};

use text::pieces::Pieces;

// How many words the text has, 65 for more than 64. That no list has so many is all that is asked of
// such a count, and no further word is looked at.
pub fn count_in(text: &[u8]) -> u8
    ensures { result ≡ min 65 (length (words text.now)) }
{
    Pieces::words(text).take(65).count() as u8
}

// The place of a word, which is its first.
fn place_in(text: &[u8], word: &[u8]) -> Option<usize>
    ensures value { result ≡ place_of word.now (numbered text.now) }
    ensures few { IfSome result (λ place. place < 64) }
{
    Pieces::words(text)
        .take(64)
        .position(|next| next.bytes == word)
}

// Whether none of the words before a place is this one.
fn is_new(text: &[u8], word: &[u8], before: usize) -> bool
    ensures { Decides result (All (λ w. w ≢ word.now) (take before (words text.now))) }
{
    Pieces::words(text)
        .take(before)
        .all(|next| next.bytes != word)
}

// The number of a word, which is its first place.
pub fn number_in(text: &[u8], word: &[u8]) -> Option<u8>
    ensures { result ≡ place_of word.now (numbered text.now) }
{
    place_in(text, word).map(|place| place as u8)
}

// The word of a number.
pub fn word_in<'a>(text: &'a [u8], number: u8) -> Option<&'a [u8]>
    ensures { option_map (λ x. x.now) result ≡ slice_get (numbered text.now) number }
{
    Pieces::words(text)
        .take(64)
        .nth(usize::from(number))
        .map(|word| word.bytes)
}

// Whether no word comes twice among those that have a number. It stays a function of its own in the program: within
// `check` it runs short of registers, and reading a roll of words of four bytes or more takes up to a quarter longer.
#[inline(never)]
pub fn is_distinct(text: &[u8]) -> bool
    ensures { Decides result (Distinct (numbered text.now)) }
{
    Pieces::words(text)
        .take(64)
        .enumerate()
        .all(|(before, word)| is_new(text, word.bytes, before))
}
