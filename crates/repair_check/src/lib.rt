//! Judging the certificate of a repair, line by line: its price, its verdicts in the network after
//! its edits, and its log for the repair formula. A text is accepted exactly if it is the
//! certificate of a claim, and such a claim is true; for any other text the answer is the first
//! line that is rejected. A `RepairJudge` takes the lines one by one.
#![tactic(auto)]

mod addresses;
mod beginning;
mod judge;
mod judging;
pub mod laws;
mod phases;

pub use addresses::read_addresses;
pub use judge::RepairJudge;
