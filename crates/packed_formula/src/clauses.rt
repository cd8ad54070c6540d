//! Clauses whose literals are one after another in one vector.
ghost use Rattle.std.specs.Prelude.{◌≡◌, ◌<◌, ◌^◌, ◌++◌, [], ◌∷◌, length, slice_get, Some, IfOk};
ghost use Rattle.std.specs.Prelude.{OnOk, OnErr};

use arc_base::{List, Memory};
use cnf_types::{Clause, Lit};
use std::alloc::Global;
use std::marker::Model;

/// Where a clause is among literals: from `start` on, up to one before `stop`.
#[derive(Clone, Copy, Debug)]
pub(crate) struct Span {
    pub start: u32,
    pub stop: u32,
}

/// Fewer than 2^32 clauses of fewer than 2^32 literals in all. Contracts see the list of the
/// clauses.
#[derive(Debug, Drop)]
pub struct PackedClauses {
    lits: Vec<Lit>,
    spans: Vec<Span>,
}

impl Model for PackedClauses {
    ghost use Rattle.cnf_types.specs.declared.clauses.Clause.{Clause as OneClause};
    ghost use Rattle.packed_formula.specs.Packed.{ArePacked, clause_at};
    ghost use Rattle.std.specs.Prelude.{List as Items, map};

    ghost Value = { Items OneClause };

    ghost view = { λ p. map (clause_at p.lits.items) p.spans.items };

    ghost invariant = { λ p. ArePacked p.lits.items p.spans.items };
}

impl PackedClauses {
    /// No clause.
    pub fn make(alloc: Global) -> PackedClauses
        ensures { result ≡ [] }
    {
        PackedClauses {
            lits: Vec::new(alloc),
            spans: Vec::new(alloc),
        }
    }

    /// Adds a clause at the end. `Memory` also where there would be 2^32 clauses or literals.
    pub fn push(&mut self, clause: &[Lit]) -> Result<(), Memory>
        ensures ok { OnOk result (self.new ≡ self.old ++ record { lits = clause.now } ∷ []) }
        ensures err { OnErr result (self.new ≡ self.old) }
    {
        let count = self.spans.len();
        let start = self.lits.len();
        let more = clause.len();
        if count >= u32::MAX as usize {
            return Err(Memory);
        }
        if more > u32::MAX as usize - start {
            return Err(Memory);
        }
        self.lits.extend_from_slice(clause)?;
        let stop = self.lits.len();
        let span = Span {
            start: start as u32,
            stop: stop as u32,
        };
        match self.spans.push(span) {
            Ok(()) => Ok(()),
            Err(_) => {
                self.lits.truncate(start);
                Err(Memory)
            }
        }
    }

    /// The number of clauses.
    pub fn len(&self) -> u32
        ensures { result ≡ length self.now }
    {
        self.spans.len() as u32
    }

    /// The literals of the clause at a place, counted from 0.
    pub fn lits(&self, at: u32) -> &[Lit]
        requires { at < length self.now }
        ensures clause { slice_get self.now at ≡ Some (record { lits = result.now }) }
        ensures few { length result.now < 2 ^ 32 }
    {
        let span = self.spans[at as usize];
        &self.lits[span.start as usize..span.stop as usize]
    }

    /// The clauses, each with a list of its own.
    pub fn unpacked(&self, alloc: Global) -> Result<List<Clause>, Memory>
        ensures { IfOk result (λ clauses. clauses ≡ self.now) }
    {
        let mut clauses = List::make(alloc);
        for at in 0..self.len() {
            let lits = List::of(Vec::from_slice(alloc, self.lits(at))?)?;
            clauses.push(Clause { lits })?;
        }
        Ok(clauses)
    }
}
