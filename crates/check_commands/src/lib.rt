//! The command `check` for certificates of both forms: the first line decides whether a text is
//! judged as a report or as the certificate of a repair.
#![tactic(auto)]

mod checking;
mod first_reading;
pub mod laws;
mod repair_lines;
mod report_lines;

pub use checking::check;
