//! The command `apply`: it writes copies of the router files with the edits of an operator's list,
//! byte for byte the old files but for what the edits insert. Its spec file has the first refusal,
//! the answer, and what the status says.
#![tactic(auto)]

mod applying;
pub mod laws;

pub use applying::apply;
