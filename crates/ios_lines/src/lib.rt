//! The lines of a router file, with their words and blocks. A file is cut in one pass, and its text
//! is lent and never copied. The first line that belongs to no block and ought to, or a banner that
//! does not end, is answered by its number.
#![tactic(auto)]

mod banner;
mod blanks;
mod cutting;
mod end;
mod kind;
pub mod laws;
mod line;
mod reading;
mod words;

pub use cutting::{LineFault, cut};
pub use line::{Line, Lines};
