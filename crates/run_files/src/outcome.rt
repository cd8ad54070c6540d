//! How a command ends.

use arc_base::{Kind, List, Memory, Name};
use std::alloc::AllocError;

/// Why a file is refused.
#[derive(Clone, Copy, Debug, PartialEq, Eq)]
pub enum Reason {
    /// A kind of refusal that a command over a document may have. `lrat` and `solve` have
    /// `Missing`, `TooLong` and `Limit` too, and `solve` has `OutputName`.
    Kind(Kind),
    /// A formula's header is missing or of another form (DIMACS).
    BadHeader,
    /// A word of a formula is no number, or has no such variable.
    BadNumber,
    /// A formula has more clauses than its header says, or fewer.
    ClauseCount,
}

/// A refusal of the input.
#[derive(Drop)]
pub struct FileRefusal {
    /// The name of the file that it is about.
    pub name: Name,
    /// The line of a router file or of a formula, the number of a link or policy of the document, a
    /// number given to `--down`, or 0.
    pub number: u32,
    pub reason: Reason,
}

/// What a command that is not refused does.
#[derive(Drop)]
pub struct Done {
    /// The text that is printed.
    pub text: Name,
    /// The files that are written before that, in order: their names and their bytes.
    pub writes: List<(Name, Name)>,
    /// The exit status, at most 3.
    pub status: u8,
}

/// Why a command has no answer.
#[derive(Drop)]
pub enum Stop {
    Refused(FileRefusal),
    /// Out of memory.
    Memory,
    /// The store failed.
    Failed,
}

impl From<Memory> for Stop {
    ghost use Rattle.std.specs.Prelude.{◌≡◌};
    ghost use Rattle.run_files.specs.declared.outcome.Stop.TheVariants as stops;

    ghost from_gives = { λ _ e. e ≡ stops.Memory };

    fn from(_error: Memory) -> Stop {
        Stop::Memory
    }
}

impl From<AllocError> for Stop {
    ghost use Rattle.std.specs.Prelude.{◌≡◌};
    ghost use Rattle.run_files.specs.declared.outcome.Stop.TheVariants as stops;

    ghost from_gives = { λ _ e. e ≡ stops.Memory };

    fn from(_error: AllocError) -> Stop {
        Stop::Memory
    }
}
