//! Router files with edits at their command lines: lines added before and after them, and lines
//! replaced. The law here says that such a file is read as its old commands with these edits,
//! whatever the numbers of its lines become.
#![tactic(auto)]

pub mod laws;
