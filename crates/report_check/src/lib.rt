//! Judges the text of a report from the network and the text alone. A text is accepted exactly if
//! it is a report with one block for each policy in order, each with a right verdict; else the
//! answer is the first line that is not of that form, or where the first wrong block begins. A
//! `ReportJudge` takes the lines one by one, as `arcv` reads them; `check_report` is for callers of
//! the library that have the whole text.
#![tactic(auto)]

mod checking;
mod judge;
mod judging;
pub mod laws;
mod outcome;

pub use checking::check_report;
pub use judge::ReportJudge;
pub use judging::is_right_at;
pub use outcome::Outcome;
