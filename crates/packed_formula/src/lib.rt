//! A formula whose literals are one after another in one vector, so that a clause takes little
//! more memory than its literals, and all of it is freed at once. Contracts see the formula.
#![tactic(auto)]

mod clauses;
mod formula;

pub use clauses::PackedClauses;
pub use formula::PackedFormula;
