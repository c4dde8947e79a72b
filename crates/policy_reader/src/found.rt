// The words of a text, up to the first that is faulty by itself.
ghost use Rattle.std.specs.Prelude.{◌≡◌, ◌<◌, length, []};
ghost use Rattle.text.specs.Text.{words as text_words, start_of};
ghost use Rattle.policy_reader.specs.Found.{Finds};

use crate::fault::WordFault;
use crate::spell::read_word;
use arrayvec::ArrayVec;
use policy_words::word::Word;
use roll::roll::Roll;
use text::pieces::Pieces;

// At most 64 words of a text, and why they are not more.
#[derive(Drop)]
pub struct Found<'a> {
    pub text: &'a [u8],
    pub words: ArrayVec<Word, 64>,
    // nothing comes after the words, or a 65th word, which begins at this byte, or a faulty one
    pub stop: Result<Option<usize>, WordFault>,
}

// Fills empty words with those of the text up to its end, its 65th word or its first faulty one, and
// tells which of these it came to. Roll and text are handed on apart, here and below: a roll is read once, for many
// texts.
fn fill(
    words: &mut ArrayVec<Word, 64>,
    roll: &Roll,
    text: &[u8],
) -> Result<Option<usize>, WordFault>
    requires { words.old.items ≡ [] }
    ensures { Finds roll.now record { text = text.entry; words = words.new; stop = result } }
{
    for piece in Pieces::words(text) {
        if words.is_full() {
            return Ok(Some(piece.at));
        }
        words.push(read_word(roll, piece)?);
    }
    Ok(None)
}

// The words of the text up to its end, its 65th or its first faulty one.
pub fn find_words<'a>(roll: &Roll, text: &'a [u8]) -> Found<'a>
    ensures text { result.text.now ≡ text.now }
    ensures found { Finds roll.now result }
{
    let mut words = ArrayVec::new();
    let stop = fill(&mut words, roll, text);
    Found { text, words, stop }
}

impl<'a> Found<'a> {
    // The byte at which word k of the text begins, where it has such a word. Of no other k does the
    // contract speak: to require that there is one, each method that asks this would have to.
    pub fn start_of(&self, k: usize) -> usize
        ensures { k < length (text_words self.now.text.now) → result ≡ start_of k (text_words self.now.text.now) }
    {
        Pieces::words(self.text).nth(k).map_or(0, |piece| piece.at)
    }
}
