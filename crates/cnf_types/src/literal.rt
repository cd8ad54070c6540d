//! Literals, coded as numbers. Each call takes constant time.
ghost use Rattle.std.specs.Prelude.{◌≡◌, ◌<◌, ◌≤◌, ◌^◌};

/// A literal: a variable or its negation. Variable v is written 2 v, and its negation 2 v + 1.
/// Variables count from 1.
#[derive(Clone, Copy, Debug, PartialEq, Eq)]
pub struct Lit {
    pub code: u64,
}

impl Lit {
    ghost use Rattle.cnf_types.specs.Literals.{literal, negated, variable, is_positive};

    /// The variable, or its negation.
    pub fn make(var: u64, positive: bool) -> Lit
        requires least { 1 ≤ var }
        requires most { var < 2 ^ 63 }
        ensures { result ≡ literal var positive }
    {
        Lit {
            code: if positive { 2 * var } else { 2 * var + 1 },
        }
    }

    /// The literal that is true where this one is false.
    pub fn negated(self) -> Lit
        ensures { result ≡ negated self }
    {
        Lit {
            code: if self.code % 2 == 0 {
                self.code + 1
            } else {
                self.code - 1
            },
        }
    }

    /// Its variable.
    pub fn var(self) -> u64
        ensures { result ≡ variable self }
    {
        self.code / 2
    }

    /// Whether it is the variable itself, and not its negation.
    pub fn positive(self) -> bool
        ensures { result ≡ is_positive self }
    {
        self.code % 2 == 0
    }
}
