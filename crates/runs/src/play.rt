// Lists of altering calls on a book of any make.
ghost use Rattle.std.specs.Prelude.{◌≡◌, min, ◌++◌, length, take, drop};
ghost use Rattle.runs.specs.Runs.{after, answer, answered, reached, LastDecides};

use book::faces::Keeping;
use book::mark::MarkFact;
use book::refusal::EnterRefusal;
use book::tie::Tie;

// A call that may alter a book. A case each and no closure: lists of calls are data, of which the law speaks.
#[derive(Clone, Copy, Debug, PartialEq, Eq)]
pub enum Call {
    Enter(Tie),
    Strike(Tie),
    SetMark(MarkFact),
    LiftMark(MarkFact),
}

// What a call is answered.
pub type Answer = Result<(), EnterRefusal>;

// Makes one call.
pub fn step<B: Keeping>(book: &mut B, call: Call) -> Answer
    ensures answer { result ≡ answer (B.meaning book.old) call }
    ensures after { B.meaning book.new ≡ after (B.meaning book.old) call }
    ensures held { B.holds book.old → B.holds book.new }
{
    match call {
        Call::Enter(tie) => book.enter(tie),
        Call::Strike(tie) => Ok(book.strike(tie)?),
        Call::SetMark(fact) => Ok(book.set_mark(fact)?),
        Call::LiftMark(fact) => Ok(book.lift_mark(fact)?),
    }
}

// Makes the calls one after the other, as many as there are places for their answers, writes each
// answer to its place, and tells how many calls were made. The places are the caller's, since calls on books
// allocate nothing, and are written by number, since nothing is known of what a zip over `iter_mut` wrote.
pub fn play<B: Keeping>(book: &mut B, calls: &[Call], answers: &mut [Answer]) -> usize
    ensures count { result ≡ min (length calls.now) (length answers.old) }
    ensures answers { answers.new ≡ answered (B.meaning book.old) (take result calls.now) ++ drop result answers.old }
    ensures after { B.meaning book.new ≡ reached (B.meaning book.old) (take result calls.now) }
    ensures decided { LastDecides (B.meaning book.old) (take result calls.now) (B.meaning book.new) }
    ensures held { B.holds book.old → B.holds book.new }
{
    let n = calls.len().min(answers.len());
    for (i, call) in calls[..n].iter().enumerate() {
        answers[i] = step(book, *call);
    }
    n
}
