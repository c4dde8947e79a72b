// Bits of a row of words, 64 at once.
ghost use Rattle.std.specs.Prelude.{◌≡◌, ℕ, ◌+◌, ◌<◌};
ghost use Rattle.bits.specs.Bits.{bit, bit_set};

use crate::rows::word;

// The 64 bits from bit i on, bit i lowest; past the words 0.
pub fn gather(words: &[u64], i: usize) -> u64
    ensures { (k : ℕ) → k < 64 → bit result k ≡ bit_set words.now (i + k) }
{
    let at = i / 64;
    let low = i % 64;
    let first = word(words, at) >> low;
    if low == 0 {
        first
    } else {
        first | (word(words, at + 1) << (64 - low))
    }
}
