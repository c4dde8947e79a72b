// The request that a question is, once its words are numbers.
use crate::order::{Question, Verb};
use book::mark::MarkFact;
use book::tie::{Neighbours, Tie};
use requests::operand::number_of;
use requests::request::Request;
use roll::list::List;
use roll::roll::Roll;
use runs::play::Call;

impl<'a> Question<'a> {
    // The request that a question is under a roll, or the first unknown word.
    pub fn resolve(self, roll: Roll<'_>) -> Result<Request, &'a [u8]> {
        match self {
            Question::OfTie(verb, label, from, to) => {
                let label = number_of(roll, List::Labels, label)?;
                let from = number_of(roll, List::Names, from)?;
                let to = number_of(roll, List::Names, to)?;
                Ok(verb.of_tie(Tie { label, from, to }))
            }
            Question::OfMark(verb, mark, name) => {
                let mark = number_of(roll, List::Marks, mark)?;
                let name = number_of(roll, List::Names, name)?;
                Ok(verb.of_mark(MarkFact { mark, name }))
            }
            Question::Next(label, direction, name, at) => {
                let label = number_of(roll, List::Labels, label)?;
                let name = number_of(roll, List::Names, name)?;
                let of = Neighbours {
                    label,
                    direction,
                    name,
                };
                Ok(Request::Next(of, at))
            }
            Question::Tally => Ok(Request::Tally),
        }
    }
}

// Two functions, since a request names the calls on ties and those on mark facts each by a case of its own.
impl Verb {
    fn of_tie(self, tie: Tie) -> Request {
        match self {
            Verb::Put => Request::Alter(Call::Enter(tie)),
            Verb::Take => Request::Alter(Call::Strike(tie)),
            Verb::Ask => Request::HasTie(tie),
        }
    }

    fn of_mark(self, fact: MarkFact) -> Request {
        match self {
            Verb::Put => Request::Alter(Call::SetMark(fact)),
            Verb::Take => Request::Alter(Call::LiftMark(fact)),
            Verb::Ask => Request::HasMark(fact),
        }
    }
}
