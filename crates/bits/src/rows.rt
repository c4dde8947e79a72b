// Rows of bits, 64 to a word: bit i is bit i % 64 of the word i / 64, from the lowest on. A row is a slice of
// words, lent with the number of a bit as slices are with an index.
ghost use Rattle.std.specs.Prelude.{◌≡◌, ℕ, ◌*◌, ◌<◌, ◌≤◌, not, length, if◌then◌else◌, nat_eq, slice_index};
ghost use Rattle.bits.specs.Bits.{bit_set};

// The word at this place; past the words 0.
pub(crate) fn word(words: &[u64], at: usize) -> u64
    ensures { result ≡ slice_index words.now at }
{
    words.get(at).copied().unwrap_or(0)
}

// Whether bit i is set; past the words none is.
pub fn is_set(words: &[u64], i: usize) -> bool
    ensures { result ≡ bit_set words.now i }
{
    (word(words, i / 64) >> (i % 64)) & 1 == 1
}

// Turns bit i over; past the words nothing is altered.
pub fn flip(words: &mut [u64], i: usize)
    ensures turned { i < length words.old * 64 → (j : ℕ) → bit_set words.new j ≡ (if nat_eq i j then not (bit_set words.old j) else bit_set words.old j) }
    ensures past { length words.old * 64 ≤ i → words.new ≡ words.old }
{
    // by its place, since of a slice `get_mut` tells nothing where it gives none
    let at = i / 64;
    if at < words.len() {
        words[at] ^= 1u64 << (i % 64);
    }
}

// Sets bit i to the value, and gives what it was; past the words nothing is altered.
pub fn replace(words: &mut [u64], i: usize, value: bool) -> bool
    ensures was { result ≡ bit_set words.old i }
    ensures set { i < length words.old * 64 → (j : ℕ) → bit_set words.new j ≡ (if nat_eq i j then value else bit_set words.old j) }
    ensures past { length words.old * 64 ≤ i → words.new ≡ words.old }
{
    let was = is_set(words, i);
    if was != value {
        flip(words, i);
    }
    was
}
