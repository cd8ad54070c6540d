//! Clauses, and formulas in conjunctive normal form.

use crate::Lit;
use arc_base::List;

/// A clause: true where one of its literals is.
#[derive(Debug, Drop)]
pub struct Clause {
    pub lits: List<Lit>,
}

/// A formula over the variables from 1 to `vars`: true where all its clauses are.
#[derive(Debug, Drop)]
pub struct Formula {
    pub vars: u64,
    pub clauses: List<Clause>,
}
