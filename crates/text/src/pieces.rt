// The pieces of a text, in which one byte parts each from the next. A text is bytes here and no `str`, since
// what comes from outside may be no text.
pub mod taking;

ghost use Rattle.std.specs.Prelude.{◌≤◌, length, unwrap_or};

// A part of a text, with the byte offset at which it begins.
#[derive(Clone, Copy)]
pub struct Piece<'a> {
    pub bytes: &'a [u8],
    pub at: usize,
}

// The pieces of a text that are still to be taken, from the left.
#[derive(Clone, Copy)]
pub struct Pieces<'a> {
    text: &'a [u8],
    part: u8,
    // where the next piece begins; nothing where no piece is left
    at: Option<usize>,
    ghost inside: { unwrap_or at 0 ≤ length text.now },
}
