//! The words of a router file's lines: which row of the language a line matches, and what it says
//! by that row. The language is a table of rows, and a line is read by one matcher over it. A line
//! that no row matches is unknown; one that rows match, but none with every word, has a faulty
//! word, which is answered by its place. `print` writes the plain line of a command.
#![tactic(auto)]

mod block_rows;
mod commands;
mod found;
mod interface_rows;
mod interpreting;
mod kinds;
pub mod laws;
mod matching;
mod meaning;
mod names;
mod numbers;
mod prefixes;
mod printed_words;
mod printing;
mod protocols;
mod reading;
mod rows;
mod services;
mod top_rows;
mod trying;
mod words;

pub use commands::{AreaText, Command, PacketText, RouteText};
pub use interpreting::command;
pub use kinds::{BlockKind, WordFault};
pub use prefixes::whole;
pub use printing::print;
