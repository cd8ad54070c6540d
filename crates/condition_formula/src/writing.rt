//! Writing clauses.
ghost use Rattle.condition_formula.specs.Clauses.{denied};
ghost use Rattle.condition_formula.specs.Writing.{Adds, IsSmall};
ghost use Rattle.std.specs.Prelude.{◌≡◌, ◌++◌, [], ◌∷◌, map, All, OnOk};

use crate::condition::Condition;
use crate::literals::{is_true, literals};
use crate::part::Part;
use crate::writer::Writer;
use arc_base::Memory;
use arc_base::groups::append;
use arc_base::limits::LITERAL_LIMIT;
use packed_formula::PackedClauses;
use std::alloc::Global;

impl Writer {
    /// A writer without clauses.
    pub(crate) fn make(alloc: Global) -> Writer
        ensures clauses { result.clauses ≡ [] }
        ensures literals { result.literals ≡ 0 }
    {
        Writer {
            alloc,
            clauses: PackedClauses::make(alloc),
            literals: 0,
        }
    }

    /// Writes the clause of these parts, unless one of them makes it true whatever its variables
    /// are. Its literals are counted even if the clause is not kept.
    pub(crate) fn put(&mut self, parts: &[Part]) -> Result<(), Memory>
        requires { All IsSmall parts.now }
        ensures { OnOk result (Adds self.old self.new (parts.now ∷ [])) }
    {
        if is_true(parts) {
            return Ok(());
        }
        let lits = literals(self.alloc, parts)?;
        self.literals = self.literals.saturating_add(lits.len() as u64);
        if self.literals <= LITERAL_LIMIT {
            self.clauses.push(&lits)?;
        }
        Ok(())
    }

    /// Writes the clause that if all of the conditions hold, one of the parts before and after is
    /// true.
    pub(crate) fn put_unless(
        &mut self,
        before: &[Part],
        conditions: &[Condition],
        after: &[Part],
    ) -> Result<(), Memory>
        requires before { All IsSmall before.now }
        requires after { All IsSmall after.now }
        ensures { OnOk result (Adds self.old self.new
            ((before.now ++ (map denied conditions.now ++ after.now)) ∷ [])) }
    {
        let mut parts = Vec::from_slice(self.alloc, before)?;
        for condition in conditions {
            parts.push(condition.denied())?;
        }
        append(&mut parts, after)?;
        self.put(&parts)
    }
}
