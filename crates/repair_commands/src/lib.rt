//! The command `repair`: it finds the cheapest edits after which a network meets its document, and
//! writes the router files that they change, with a certificate. Its spec files have the first
//! refusal, the answer, and what the status says.
#![tactic(auto)]

mod answers;
pub mod laws;
mod repairing;

pub use repairing::{find_repair, repair};
