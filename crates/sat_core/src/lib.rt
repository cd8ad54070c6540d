//! The core of a solver for formulas in conjunctive normal form: the live clauses, the trail of the
//! literals that are true, and unit propagation, which is complete. Contracts see a core as its
//! clauses and its trail.
#![tactic(auto)]

mod added;
mod adding;
mod assigned;
mod engine;
mod examining;
mod forgetting;
pub mod laws;
mod learning;
mod levels;
mod marks;
mod numbered;
mod progress;
mod propagating;
mod reading;
mod rows;
mod store;
mod trail;
mod visiting;
mod walking;
mod wide;

pub use assigned::{Assigned, Held};
pub use engine::Core;
pub use numbered::Numbered;
