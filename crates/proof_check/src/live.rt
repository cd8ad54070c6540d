//! Live clauses under their ids.
ghost use Rattle.proof_check.specs.Knowledge.{formula_clause, with_clause, without_clauses};
ghost use Rattle.proof_check.specs.View.{clause_in};
ghost use Rattle.std.specs.Prelude.{◌≡◌, [], ◌∷◌, ℕ, ◌+◌, ◌<◌, ◌≤◌, length, position, is_none};
ghost use Rattle.std.specs.Prelude.{option_map, OnOk, OnErr};

use crate::rows::Rows;
use crate::tables::Table;
use arc_base::Memory;
use cnf_types::Lit;
use std::alloc::Global;
use std::collections::HashMap;

/// The live clauses: each in the row of its id, as long as the ids follow one another from 0 on,
/// and the others in a map.
#[derive(Drop)]
pub(crate) struct Live {
    near: Table,
    far: HashMap<u64, Vec<Lit>>,
}

impl Live {
    /// The clauses of a formula, under the ids from 1 on.
    pub fn of(alloc: Global, rows: Rows) -> Live
        ensures clauses { (id : ℕ) → clause_in result id ≡ formula_clause rows id }
        ensures rows { length result.near ≡ length rows + 1 }
    {
        Live {
            near: rows.into_table(),
            far: HashMap::new(alloc),
        }
    }

    /// The clause of an id.
    #[inline]
    pub fn get(&self, id: u64) -> Option<&[Lit]>
        ensures { option_map (λ lits. lits.now) result ≡ clause_in self.now id }
    {
        match self.near.get(id as usize) {
            Some(clause) => clause,
            None => Some(self.far.get(&id)?.as_slice()),
        }
    }

    /// Takes out the clause of an id.
    fn remove(&mut self, id: u64)
        ensures clauses { (j : ℕ) →
            clause_in self.new j ≡ without_clauses (clause_in self.old) (id ∷ []) j }
        ensures rows { length self.new.near ≡ length self.old.near }
    {
        if id < self.near.len() as u64 {
            self.near.remove(id as usize);
        } else {
            self.far.remove(&id);
        }
    }

    /// Takes out the clauses of these ids.
    pub fn remove_all(&mut self, ids: &[u64])
        ensures clauses { (j : ℕ) →
            clause_in self.new j ≡ without_clauses (clause_in self.old) ids.now j }
        ensures rows { length self.new.near ≡ length self.old.near }
    {
        for id in ids {
            self.remove(*id);
        }
    }

    /// The index of the first id that has no clause.
    pub fn first_unknown(&self, ids: &[u64]) -> Option<usize>
        ensures { result ≡ position (λ id. is_none (clause_in self.now id)) ids.now }
    {
        ids.iter().position(|id| self.get(*id).is_none())
    }

    /// Stores a clause under an id that has no row.
    pub fn put(&mut self, alloc: Global, id: u64, lits: &[Lit]) -> Result<(), Memory>
        requires { length self.old.near ≤ id }
        ensures ok { OnOk result ((j : ℕ) →
            clause_in self.new j ≡ with_clause (clause_in self.old) id lits.now j) }
        ensures err { OnErr result ((j : ℕ) → clause_in self.new j ≡ clause_in self.old j) }
        ensures rows { OnOk result (length self.new.near ≤ id + 1) }
        ensures same_rows { OnErr result (length self.new.near ≡ length self.old.near) }
    {
        if id == self.near.len() as u64 {
            self.near.push(lits)?;
        } else {
            let clause = Vec::from_slice(alloc, lits)?;
            self.far.insert(id, clause)?;
        }
        Ok(())
    }
}
