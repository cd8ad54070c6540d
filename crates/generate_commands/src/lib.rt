//! The command `generate`: it makes a network from its number of routers, judges its policies,
//! repairs it as `repair` does by default, and writes the certificate. Its spec files have the
//! answer, and what the status says.
#![tactic(auto)]

mod answers;
mod generating;
pub mod laws;
mod lines;
mod tallies;

pub use generating::generate;
pub use tallies::Tally;
