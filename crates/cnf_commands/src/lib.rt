//! The commands over formulas: `solve` searches for an assignment that satisfies one and writes the
//! log of its search, and `lrat` judges whether such a log shows that there is none. Each has a
//! spec file with its first refusal, its answer, and what its status says.
#![tactic(auto)]

mod formulas;
pub mod laws;
mod lrat_check;
mod proof_lines;
mod solving;

pub use lrat_check::lrat;
pub use solving::solve;
