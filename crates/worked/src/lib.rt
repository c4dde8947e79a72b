// Worked examples, settled by proof from the definitions.
#![tactic(auto)]

ghost use Rattle.worked.specs.Policies.{PolicyExamples};

// Of six policy texts, over any roll that has the label buys: which fault is told, and no other.
pub fn policies()
    ensures { PolicyExamples }
{}
