ghost use Rattle.std.specs.Prelude.{◌≡◌, not, ◌&&◌, ◌||◌, if◌then◌else◌};
ghost use Rattle.policy_words.specs.declared.word.Letter.{Letter as PolicyLetter};
ghost use Rattle.policy.specs.Letters.{has, alike};

use policy_words::word::Letter;

// A set of letters, a field for each: the toolchain's `bitflags` has contracts only with an impl by hand.
#[derive(Clone, Copy, Debug, PartialEq, Eq)]
pub struct Letters {
    pub requester: bool,
    pub resource: bool,
    pub a: bool,
    pub b: bool,
}

impl Letters {
    // No letter.
    pub const NONE: Letters = Letters {
        requester: false,
        resource: false,
        a: false,
        b: false,
    };

    // The letters that every request gives.
    pub const GIVEN: Letters = Letters {
        requester: true,
        resource: true,
        a: false,
        b: false,
    };

    // Whether the letter is in the set.
    pub fn contains(self, v: Letter) -> bool
        ensures { result ≡ has v self }
    {
        match v {
            Letter::Requester => self.requester,
            Letter::Resource => self.resource,
            Letter::A => self.a,
            Letter::B => self.b,
        }
    }

    // The letters of both sets.
    pub fn union(self, other: Letters) -> Letters
        ensures { (v : PolicyLetter) → has v result ≡ (has v self || has v other) }
    {
        Letters {
            requester: self.requester || other.requester,
            resource: self.resource || other.resource,
            a: self.a || other.a,
            b: self.b || other.b,
        }
    }

    // The set with the letter in it, or with the letter not in it.
    fn put(self, u: Letter, value: bool) -> Letters
        ensures { (v : PolicyLetter) → has v result ≡ (if alike v u then value else has v self) }
    {
        match u {
            Letter::Requester => Letters {
                requester: value,
                ..self
            },
            Letter::Resource => Letters {
                resource: value,
                ..self
            },
            Letter::A => Letters { a: value, ..self },
            Letter::B => Letters { b: value, ..self },
        }
    }

    // The set with one letter more.
    pub fn with(self, u: Letter) -> Letters
        ensures { (v : PolicyLetter) → has v result ≡ (alike v u || has v self) }
    {
        self.put(u, true)
    }

    // The set without one letter.
    pub fn without(self, u: Letter) -> Letters
        ensures { (v : PolicyLetter) → has v result ≡ (not (alike v u) && has v self) }
    {
        self.put(u, false)
    }
}
