//! How long router files get by edits: files that are short enough to be edited are short enough to
//! be read after the edits, one by one and together.
#![tactic(auto)]

pub mod laws;
