//! The commands that judge a network as its files give it: `verify` judges each policy of a
//! document and reports the verdicts, and `trace` follows packets with some links down. Each has a
//! spec file with its first refusal, its answer, and what its status says.
#![tactic(auto)]

pub mod laws;
mod tracing;
mod verifying;

pub use tracing::trace;
pub use verifying::verify;
