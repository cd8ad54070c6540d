//! Marks on literals, by which a literal and its negation are found in one walk along a clause.
ghost use Rattle.cnf_types.specs.Literals.{negated};
ghost use Rattle.cnf_types.specs.declared.literal.Lit.{Lit};
ghost use Rattle.sat_core.specs.Trails.{IsOf};
ghost use Rattle.sat_core.specs.Watches.{IsBoth};
ghost use Rattle.std.specs.List.{list_any};
ghost use Rattle.std.specs.Prelude.{◌≡◌, ◌<◌, ◌≤◌, ◌==◌, false, length, All, IfOk, slice_index_or};
ghost use Rattle.std.specs.Prelude.{if◌then◌else◌};

use arc_base::Memory;
use arc_base::limits::VARIABLE_LIMIT;
use cnf_types::Lit;
use std::alloc::Global;
use std::marker::Model;

/// A mark for each literal, by its code. Between calls none is set. Contracts see the number of
/// variables.
#[derive(Debug, Drop)]
pub(crate) struct Marks {
    vars: u64,
    marks: Vec<bool>,
}

impl Model for Marks {
    ghost use Rattle.std.specs.Prelude.{ℕ};

    ghost Value = { ℕ };

    ghost use Rattle.sat_core.specs.Kept.{marked_vars, AreClear};

    ghost view = { marked_vars };

    ghost invariant = { AreClear };
}

impl Marks {
    /// Takes the room for a mark of each literal.
    pub fn make(alloc: Global, vars: u64) -> Result<Marks, Memory>
        requires { vars ≤ VARIABLE_LIMIT }
        ensures { IfOk result (λ marks. marks ≡ vars) }
    {
        Ok(Marks {
            vars,
            marks: vec![in alloc; false; 2 * vars as usize + 2]?,
        })
    }

    /// Whether a literal is in the clause together with its negation.
    pub fn has_both(&mut self, lits: &[Lit]) -> bool
        requires { All (IsOf self.old) lits.now }
        ensures same { self.new ≡ self.old }
        ensures both { IsBoth lits.now result }
    {
        set(&mut self.marks, lits, true);
        let found = has_marked(&self.marks, lits);
        set(&mut self.marks, lits, false);
        found
    }
}

/// Sets the mark of each literal of a clause, or clears it.
fn set(marks: &mut [bool], lits: &[Lit], mark: bool)
    requires { All (λ l. l.code < length marks.old) lits.now }
    ensures size { length marks.new ≡ length marks.old }
    ensures marks { (l : Lit) →
        slice_index_or marks.new l.code false ≡ (if list_any (λ m. m.code == l.code) lits.now
        then mark else slice_index_or marks.old l.code false) }
{
    for lit in lits {
        marks[lit.code as usize] = mark;
    }
}

/// Whether the negation of a literal of the clause is marked, as exactly its literals are.
fn has_marked(marks: &[bool], lits: &[Lit]) -> bool
    requires range { All (λ l. (negated l).code < length marks.now) lits.now }
    requires marked { (l : Lit) →
        slice_index_or marks.now l.code false ≡ list_any (λ m. m.code == l.code) lits.now }
    ensures { IsBoth lits.now result }
{
    for lit in lits {
        if marks[lit.negated().code as usize] {
            return true;
        }
    }
    false
}
