//! Laws over how numbers and addresses are written: a text is read as one exactly where it is that
//! number's or that address's text.
#![tactic(auto)]

pub mod laws;
