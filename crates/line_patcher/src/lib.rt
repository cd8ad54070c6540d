//! The router files after edits: each file with lines added between its own, which keep their
//! bytes. An operator gets his files back as he wrote them, with what the edits add at the places
//! where he would have written it himself.
#![tactic(auto)]

mod additions;
mod entries;
mod list_kinds;
mod new_lists;
mod patches;
mod plans;
mod printed;
mod sessions;
mod texts;

pub use additions::NewNumber;
pub use patches::patch;
