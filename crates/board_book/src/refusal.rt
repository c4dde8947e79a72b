// Why a board cannot be made as asked.
ghost use Rattle.std.specs.Prelude.{◌≡◌};
ghost use Rattle.board_book.specs.Making.{board_number};
ghost use Rattle.board_book.specs.declared.refusal.BoardRefusal.TheVariants.{Counts as CountsRefused};

use book::counts::CountRefusal;

// The refusals of a check.
#[derive(Clone, Copy, Debug, PartialEq, Eq)]
pub enum BoardRefusal {
    // 20: a count is outside its limits
    Counts(CountRefusal),
    // 14: there are fewer words than the possible ties need
    FewWords,
}

impl BoardRefusal {
    // The number by which the refusal is told.
    pub fn number(self) -> u8
        ensures { result ≡ board_number self }
    {
        match self {
            BoardRefusal::Counts(refusal) => refusal.number(),
            BoardRefusal::FewWords => 14,
        }
    }
}

impl From<CountRefusal> for BoardRefusal {
    ghost from_gives = { λ e r. r ≡ CountsRefused e };

    fn from(refusal: CountRefusal) -> BoardRefusal {
        Self::Counts(refusal)
    }
}
