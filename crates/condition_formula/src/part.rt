//! The parts of a clause before it is written.
ghost use Rattle.condition_formula.specs.Clauses.{yes, no, affirmed, denied};
ghost use Rattle.condition_formula.specs.Writing.{IsSmall};
ghost use Rattle.std.specs.Prelude.{◌≡◌, ◌<◌, ◌+◌, ◌^◌};

use crate::condition::Condition;

/// A part of a clause: a truth value, or a literal: its variable, counted from 1, and whether it is
/// positive.
#[derive(Clone, Copy)]
pub enum Part {
    Fixed(bool),
    Literal(u64, bool),
}

/// The variable, as a part.
pub(crate) fn yes(variable: u64) -> Part
    requires { variable < 2 ^ 62 }
    ensures part { result ≡ yes variable }
    ensures small { IsSmall result }
{
    Part::Literal(variable, true)
}

/// The negation of the variable, as a part.
pub(crate) fn no(variable: u64) -> Part
    requires { variable < 2 ^ 62 }
    ensures part { result ≡ no variable }
    ensures small { IsSmall result }
{
    Part::Literal(variable, false)
}

/// The variable of the edit at this place.
pub(crate) fn edit_variable(edit: u32) -> u64
    ensures { result ≡ edit + 1 }
{
    u64::from(edit) + 1
}

impl Condition {
    /// The part of a clause that says that the condition holds.
    pub fn affirmed(self) -> Part
        ensures part { result ≡ affirmed self }
        ensures small { IsSmall result }
    {
        match self {
            Condition::Always => Part::Fixed(true),
            Condition::Never => Part::Fixed(false),
            Condition::If(edit) => yes(edit_variable(edit)),
            Condition::Unless(edit) => no(edit_variable(edit)),
        }
    }

    /// The part of a clause that says that the condition does not hold.
    pub fn denied(self) -> Part
        ensures part { result ≡ denied self }
        ensures small { IsSmall result }
    {
        match self {
            Condition::Always => Part::Fixed(false),
            Condition::Never => Part::Fixed(true),
            Condition::If(edit) => no(edit_variable(edit)),
            Condition::Unless(edit) => yes(edit_variable(edit)),
        }
    }
}
