use policy_words::word::Word;

// A word of a policy's table. Its first operand is the next word; `second` is the number of the
// first word of its second operand, if it has one. A number and no box, since a policy allocates nothing.
#[derive(Clone, Copy, Debug, PartialEq, Eq)]
pub struct Entry {
    pub word: Word,
    pub second: Option<u8>,
}
