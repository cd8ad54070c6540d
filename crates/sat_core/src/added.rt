//! The clauses as they were added, for proofs alone: it takes no memory, and its calls do nothing
//! when a program runs.
ghost use Rattle.sat_core.specs.Numbers.{coded_clauses};
ghost use Rattle.sat_core.specs.declared.numbered.Numbered.{Numbered};
ghost use Rattle.std.specs.Borrow.{ftrue};
ghost use Rattle.std.specs.Prelude.{◌≡◌, List, [], ◌∷◌, ◌++◌};

use crate::assigned::Held;
use cnf_types::Lit;
use std::marker::Model;

/// The list of the clauses, each with its literals in the order in which they were added. Walks
/// along chains exchange a clause's literals in the pool, and contracts still see this order.
#[derive(Debug, Drop)]
pub(crate) struct Added {
    ghost clauses: { List Numbered } by { coded_clauses },
}

impl Model for Added {
    ghost also_owns = { λ _. ftrue };
}

/// A clause that is added.
#[derive(Clone, Copy, Debug)]
pub(crate) struct NewClause<'a> {
    pub id: u64,
    pub lits: &'a [Lit],
}

impl Added {
    ghost use Rattle.sat_core.specs.Forgotten.{without_at};

    /// No clause.
    pub fn none() -> Added
        ensures { result.clauses ≡ [] }
    {
        Added {}
    }

    /// With a clause more.
    pub fn with(&self, _clause: &NewClause<'_>) -> Added
        ensures { result.clauses ≡ self.now.clauses
            ++ record { id = _clause.now.id; lits = _clause.now.lits.now } ∷ [] }
    {
        Added {}
    }

    /// Without the clause at a place, which the last one takes.
    pub fn without(&self, _held: &Held) -> Added
        ensures { result.clauses ≡ without_at self.now.clauses _held.now.0 }
    {
        Added {}
    }
}
