//! Formulas in conjunctive normal form, and how they are read from a DIMACS text: literals, clauses
//! and formulas, and what takes the clauses as they are read. Contracts see a formula as its
//! clauses, and an assignment as a truth value for each variable.
#![tactic(auto)]

mod body;
mod clauses;
mod dimacs;
mod faults;
mod header;
mod literal;
mod sinks;

pub use clauses::{Clause, Formula};
pub use dimacs::{formula, read_clauses};
pub use faults::CnfFault;
pub use header::is_comment;
pub use literal::Lit;
pub use sinks::ClauseSink;
