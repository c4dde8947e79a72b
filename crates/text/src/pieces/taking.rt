ghost use Rattle.std.specs.Prelude.{◌≡◌, ℕ, ◌<◌, List, [], length, Decides};
ghost use Rattle.std.specs.Iterator.{at_most};
ghost use Rattle.text.specs.Text.{pieces, words, Cut, WordCut, StandsAt};
ghost use Rattle.text.specs.Left.{left, start, whole, Gives, GivesEach, GivesPlaces};

use super::{Piece, Pieces};

impl<'a> Pieces<'a> {
    // The words of a text: one space parts words, and an empty text has none. They are the only
    // words without a space that, with a space between each two, are the text again.
    #[tactic(auto, using(crate::proofs::Cuts::cut_words, crate::proofs::Cuts::words_only, crate::proofs::Cuts::words_stand))]
    pub fn words(text: &'a [u8]) -> Pieces<'a>
        ensures value { left result ≡ words text.now }
        ensures starts { start result ≡ 0 }
        ensures holds { whole result ≡ text.now }
        ensures none { text.now ≡ [] → words text.now ≡ [] }
        ensures cut { WordCut text.now (words text.now) }
        ensures only { (ws : List (List ℕ)) → WordCut text.now ws → ws ≡ words text.now }
        ensures stand { (k : ℕ) → k < length (words text.now) → StandsAt k (words text.now) text.now }
        ensures each { GivesEach }
        ensures places { GivesPlaces }
    {
        let at = if text.is_empty() { None } else { Some(0) };
        Pieces {
            text,
            part: b' ',
            at,
        }
    }

    // All pieces of a text: one more than it has of the parting byte. They are the only pieces
    // without that byte that, with the byte between each two, are the text again.
    #[tactic(auto, using(crate::proofs::Cuts::cut_pieces, crate::proofs::Cuts::cut_only, crate::proofs::Cuts::pieces_stand))]
    pub fn all(text: &'a [u8], part: u8) -> Pieces<'a>
        ensures value { left result ≡ pieces part text.now }
        ensures starts { start result ≡ 0 }
        ensures holds { whole result ≡ text.now }
        ensures cut { Cut part text.now (pieces part text.now) }
        ensures only { (ws : List (List ℕ)) → Cut part text.now ws → ws ≡ pieces part text.now }
        ensures stand { (k : ℕ) → k < length (pieces part text.now) → StandsAt k (pieces part text.now) text.now }
        ensures each { GivesEach }
        ensures places { GivesPlaces }
    {
        Pieces {
            text,
            part,
            at: Some(0),
        }
    }

    // Whether no piece is left.
    #[tactic(auto, using(crate::proofs::Cuts::some_piece))]
    pub fn is_over(&self) -> bool
        ensures { Decides result (left self.now ≡ []) }
    {
        self.at.is_none()
    }
}

impl<'a> Iterator for Pieces<'a> {
    type Item = Piece<'a>;

    // The next piece, while there is one.
    ghost next_gives = { Gives };

    ghost remaining = { λ p. at_most (length (left p)) };

    fn next(&mut self) -> Option<Piece<'a>> {
        let at = self.at?;
        let rest = &self.text[at..];
        let part = self.part;
        let Some(end) = rest.iter().position(|b| *b == part) else {
            self.at = None;
            return Some(Piece { bytes: rest, at });
        };
        self.at = Some(at + end + 1);
        Some(Piece {
            bytes: &rest[..end],
            at,
        })
    }
}
