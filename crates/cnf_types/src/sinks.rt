//! What takes the clauses of a formula one by one, as a trait.
ghost use Rattle.std.specs.Prelude.{◌≡◌, ◌<◌, ◌-◌, ◌^◌, ◌++◌, [], ◌∷◌, List as Items, length};
ghost use Rattle.std.specs.Prelude.{sum_by, OnOk, OnErr};

use crate::clauses::Clause;
use crate::literal::Lit;
use arc_base::{List, Memory};
use std::alloc::Global;

/// What takes the clauses of a formula in their order, as they are read.
pub trait ClauseSink {
    ghost use Rattle.cnf_types.specs.declared.clauses.Clause.{Clause};

    /// The clauses that were taken.
    ghost taken: { Self → Items Clause };

    /// Takes the clause of these literals.
    fn take(&mut self, alloc: Global, lits: &[Lit]) -> Result<(), Memory>
        requires { length (taken self.old) < 2 ^ 32 - 1 }
        ensures ok { OnOk result
            (taken self.new ≡ taken self.old ++ record { lits = lits.now } ∷ []) }
        ensures err { OnErr result (taken self.new ≡ taken self.old) };

    /// How many clauses were taken.
    fn count(&self) -> u64
        ensures { result ≡ length (taken self.now) };

    /// How many literals they have.
    fn literal_count(&self) -> u64
        ensures { result ≡ sum_by (λ c. length c.lits) (taken self.now) };
}

/// How many literals clauses have.
fn literal_count(clauses: &[Clause]) -> u64
    requires { length clauses.now < 2 ^ 32 }
    ensures { result ≡ sum_by (λ c. length c.lits) clauses.now }
{
    let mut count = 0;
    for clause in clauses {
        count += u64::from(clause.lits.len());
    }
    count
}

impl ClauseSink for List<Clause> {
    ghost taken = { λ clauses. clauses };

    fn take(&mut self, alloc: Global, lits: &[Lit]) -> Result<(), Memory> {
        let lits = List::of(Vec::from_slice(alloc, lits)?)?;
        self.push(Clause { lits })
    }

    fn count(&self) -> u64 {
        u64::from(self.len())
    }

    fn literal_count(&self) -> u64 {
        literal_count(self.slice())
    }
}
