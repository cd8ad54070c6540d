//! Proof logs: the steps that add a clause with its hints, drop clauses or assert a bound, and
//! their text, which is that of LRAT without RAT steps, with lines for bounds. Each line that is
//! written is read as the step that it was written from.
#![tactic(auto)]

mod interpreting;
pub mod laws;
mod numbers;
mod printing;
mod reading;
mod steps;

pub use interpreting::{added, interpret};
pub use numbers::Sign;
pub use printing::text;
pub use reading::{LineKind, line_numbers, step};
pub use steps::{Log, Step};
