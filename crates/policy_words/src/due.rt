// What is due while the words of a policy are read.
ghost use Rattle.std.specs.Prelude.{◌≡◌, ◌+◌, ◌≤◌, Decides, IfSome, MatchOption};
ghost use Rattle.policy_words.specs.Due.{paths_of, formulas_of, Stuck, Turns};

use crate::word::Word;

// What is due before a policy is finished: first paths, then formulas.
#[derive(Clone, Copy, Debug, PartialEq, Eq)]
pub struct Due {
    pub paths: usize,
    pub formulas: usize,
}

// The operands of a word: first paths, then formulas.
fn takes(w: Word) -> Due
    ensures paths { result.paths ≡ paths_of w }
    ensures formulas { result.formulas ≡ formulas_of w }
    ensures few { result.paths + result.formulas ≤ 2 }
{
    let formulas = w.formulas();
    let paths = w.operands() - formulas;
    Due {
        paths: paths.into(),
        formulas: formulas.into(),
    }
}

impl Due {
    // What is due at first: one formula.
    pub const FIRST: Due = Due {
        paths: 0,
        formulas: 1,
    };

    // Whether nothing is due.
    pub fn is_empty(self) -> bool
        ensures { Decides result (self.paths + self.formulas ≡ 0) }
    {
        self.paths == 0 && self.formulas == 0
    }

    // What is due once the word is read, or none where it is not of the kind that is due.
    pub fn after(self, w: Word) -> Option<Due>
        requires { self.paths + self.formulas ≤ 1000 }
        ensures row { MatchOption result (Stuck w self.paths self.formulas) (λ d. Turns w self.paths self.formulas d.paths d.formulas) }
        ensures few { IfSome result (λ d. d.paths + d.formulas ≤ self.paths + self.formulas + 1) }
    {
        let takes = takes(w);
        if w.is_path() {
            let rest = self.paths.checked_sub(1)?;
            Some(Due {
                paths: rest + takes.paths,
                ..self
            })
        } else if self.paths > 0 {
            None
        } else {
            let rest = self.formulas.checked_sub(1)?;
            Some(Due {
                paths: takes.paths,
                formulas: rest + takes.formulas,
            })
        }
    }
}
