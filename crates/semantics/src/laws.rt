// The laws of satisfaction on which verdicts rest.
ghost use Rattle.semantics.specs.Verdicts.{FreeLettersDecide, JudgedAnywhere, OneJudgement};

// Satisfaction depends only on the letters that are free in a formula; the verdict on a closed and
// anchored one depends neither on the name at which it is judged nor on the letters a and b; no
// request has two answers.
pub fn laws_of_satisfaction()
    ensures letters { FreeLettersDecide }
    ensures anywhere { JudgedAnywhere }
    ensures one { OneJudgement }
{}
