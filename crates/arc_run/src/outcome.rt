//! How a run ends.

use run_files::{Done, FileRefusal};

/// The exit status of a run: 0 for yes, 1 for no, 2 if no assignment satisfies the formula, 3 if a
/// search reached its limit, 4 if the words match no command, 5 for a refusal, 6 and 7 if the store
/// or the sink failed, 8 for out of memory.
#[derive(Clone, Copy, Debug, PartialEq, Eq)]
pub struct Status {
    pub code: u8,
}

/// An outcome that the words and the files define.
#[derive(Drop)]
pub enum Outcome {
    /// The words match no command.
    Usage,
    Refused(FileRefusal),
    Done(Done),
}

/// How a run ended: its status, and the outcome that the words and the files define, if the run got
/// as far.
#[derive(Drop)]
pub struct Ended {
    pub status: Status,
    pub outcome: Option<Outcome>,
}
