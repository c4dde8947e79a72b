// What a book is asked at the console, and what it replies.
ghost use Rattle.std.specs.Prelude.{◌≡◌, Ok, Some};
ghost use Rattle.runs.specs.Runs.{answer, after};
ghost use Rattle.requests.specs.Requests.{Replies, meaning_after};
ghost use Rattle.requests.specs.Tallies.{tally_text};

use book::counts::Counts;
use book::faces::Keeping;
use book::mark::MarkFact;
use book::refusal::EnterRefusal;
use book::tie::{Neighbours, Tie};
use runs::play::{Answer, Call, play};
use std::fmt;

// A request to a book of any make. A case each and no closure: what is replied is a law over requests.
#[derive(Clone, Copy, Debug, PartialEq, Eq)]
pub enum Request {
    Alter(Call),
    HasTie(Tie),
    HasMark(MarkFact),
    // the neighbours of a name, and the lowest name that may be told
    Next(Neighbours, u8),
    Tally,
}

// How much a book holds, and how much it can.
#[derive(Clone, Copy, Debug, PartialEq, Eq)]
pub struct Tally {
    pub counts: Counts,
    pub ties: usize,
    pub marked: usize,
    pub capacity: usize,
}

impl fmt::Display for Tally {
    ghost output = { λ t. Some (tally_text t) };

    fn fmt<W: fmt::Write>(&self, f: &mut fmt::Formatter<W>) -> fmt::Result {
        let Counts {
            names,
            labels,
            marks,
        } = self.counts;
        let (ties, marked, capacity) = (self.ties, self.marked, self.capacity);
        write!(
            f,
            "names={names} labels={labels} marks={marks} ties={ties} marked={marked} capacity={capacity}"
        )
    }
}

// What a request is replied where it is not refused.
#[derive(Clone, Copy, Debug, PartialEq, Eq)]
pub enum Reply {
    Done,
    Told(bool),
    // the number of a name, or none
    Name(Option<u8>),
    Tally(Tally),
}

// Puts the request to the book.
pub fn perform<B: Keeping>(book: &mut B, request: Request) -> Result<Reply, EnterRefusal>
    ensures reply { Replies (B.meaning book.old) request result }
    ensures after { B.meaning book.new ≡ meaning_after (B.meaning book.old) request }
    ensures held { B.holds book.old → B.holds book.new }
{
    Ok(match request {
        Request::Alter(call) => {
            alter(book, call)?;
            Reply::Done
        }
        Request::HasTie(tie) => Reply::Told(book.has_tie(tie)?),
        Request::HasMark(fact) => Reply::Told(book.has_mark(fact)?),
        Request::Next(of, at) => Reply::Name(book.next(of, at)?),
        Request::Tally => Reply::Tally(count_up(book)),
    })
}

// Makes an altering call, as a list of one, and not by `step`, so that the law of lists of calls stands on a call
// that programs make.
fn alter<B: Keeping>(book: &mut B, call: Call) -> Answer
    ensures answer { result ≡ answer (B.meaning book.old) call }
    ensures after { B.meaning book.new ≡ after (B.meaning book.old) call }
    ensures held { B.holds book.old → B.holds book.new }
{
    let mut answers = [Ok(())];
    play(book, &[call], &mut answers);
    answers[0]
}

// What the book holds.
fn count_up<B: Keeping>(book: &B) -> Tally
    ensures { Replies (B.meaning book.now) Request.Tally (Ok (Reply.Tally result)) }
{
    Tally {
        counts: book.counts(),
        ties: book.tie_count(),
        marked: book.mark_count(),
        capacity: book.capacity(),
    }
}
