//! The cheapest repair of a network, and the check of a claimed one. A repair is a set of modelled
//! edits after which the network meets its document; that none is cheaper is shown by a log that
//! refutes the repair formula under a lower bound. A check judges a claim and its log from the
//! network and the document alone, and accepts only what is true. `repair` and `Check` are for
//! callers of the library: `arcv` counts the classes before it calls `repair_of`, and checks a
//! claim as it reads it (`repair_check`).
#![tactic(auto)]

mod answer;
mod check;
mod costs;
mod defects;
mod judging;
pub mod laws;
mod repairing;
mod searching;

pub use answer::Answer;
pub use check::{Check, Made};
pub use repairing::{repair, repair_of};
