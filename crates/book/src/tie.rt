// Ties, and the names that they join to a name.
ghost use Rattle.std.specs.Prelude.{◌≡◌};
ghost use Rattle.book.specs.Ties.{toward};

// A tie with a label from a name to a name, perhaps the same one; all three by number.
#[derive(Clone, Copy, Debug, Default, PartialEq, Eq)]
pub struct Tie {
    pub label: u8,
    pub from: u8,
    pub to: u8,
}

// Along which way of a tie a name is sought.
#[derive(Clone, Copy, Debug, PartialEq, Eq)]
pub enum Direction {
    // the names that a name is tied to
    Forward,
    // the names that are tied to it
    Backward,
}

// The neighbours of a name: the names that ties of a label join it to along a direction.
#[derive(Clone, Copy, Debug, PartialEq, Eq)]
pub struct Neighbours {
    pub label: u8,
    pub direction: Direction,
    pub name: u8,
}

impl Neighbours {
    // The tie that makes the other name a neighbour: from the name to it, or from it to the name.
    pub fn tie(self, other: u8) -> Tie
        ensures { result ≡ toward self other }
    {
        let Neighbours {
            label,
            direction,
            name,
        } = self;
        match direction {
            Direction::Forward => Tie {
                label,
                from: name,
                to: other,
            },
            Direction::Backward => Tie {
                label,
                from: other,
                to: name,
            },
        }
    }
}
