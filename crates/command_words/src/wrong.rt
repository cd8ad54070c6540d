//! Why words match no command.

use crate::values::Fault;
use arc_base::Name;

/// A word that is not the value that its place or option takes.
#[derive(Drop)]
pub struct WrongWord {
    /// The name of the place or the option.
    pub name: &'static str,
    pub word: Name,
    pub fault: Fault,
}

/// Why words match no command.
#[derive(Drop)]
pub enum WrongWords {
    /// One of them is not UTF-8.
    NotText,
    /// They name no command.
    NoCommand,
    /// They are not in the form of a command: what `clap` says of it.
    Form(clap::Error),
    /// A value is wrong.
    Value(WrongWord),
}
