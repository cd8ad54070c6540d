//! The cheapest model of a formula whose models have prices. Each search ends with a model, whose
//! price the next one has to beat, or with a refutation, which shows that the last price was the
//! least. The contracts say that no model is cheaper, and that the one log of all searches shows it
//! to a checker.
#![tactic(auto)]

mod attempting;
mod beginning;
mod bounding;
mod descending;
mod found;
pub mod laws;
mod loading;
mod offering;
mod prices;

pub use descending::descend;
pub use found::{Found, Offer};
pub use prices::Prices;
