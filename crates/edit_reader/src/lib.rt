//! Edit files: each line names one edit of a network by its text, in any order. Reading one gives
//! the edits that it names, or its first wrong line: one that names no edit, or one that an earlier
//! line names.
#![tactic(auto)]

mod places;
mod reading;

pub use reading::{Named, named_edits};
