//! The words of the command line: which command they name, its positional words and its options.
//! The kit's `clap` reads them, and the contract of the reading is stated over the words alone. A
//! command's values are read here too, as prefixes and numbers.
#![tactic(auto)]

mod commands;
mod forms;
mod found;
mod grammar;
pub mod laws;
mod matched;
mod reading;
mod values;
mod wrong;

pub use commands::{
    ApplyWords, Command, GenerateWords, NodesWords, PrefersWords, RecheckWords, RepairWords,
    SolveWords, TraceWords,
};
pub use forms::{CommandForm, CommandKind, CommandOption, command_forms, form_named};
pub use reading::{explain_words, read_words};
pub use values::{Fault, LAST_LINK};
pub use wrong::{WrongWord, WrongWords};
