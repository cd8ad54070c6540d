//! The clauses of a formula in the rows of a table, as they are read.
ghost use Rattle.proof_check.specs.Rows.{rows_of};
ghost use Rattle.std.specs.Prelude.{◌≡◌, ◌<◌, ◌^◌, [], IfOk, length};

use crate::tables::Table;
use arc_base::Memory;
use cnf_types::{Clause, ClauseSink, Lit};
use std::alloc::Global;
use std::marker::Model;

/// Clauses in the rows from 1 on of a table whose row 0 has none. Contracts see the list of the
/// clauses.
#[derive(Drop)]
pub(crate) struct Rows {
    table: Table,
}

impl Model for Rows {
    ghost use Rattle.cnf_types.specs.declared.clauses.Clause.{Clause};
    ghost use Rattle.proof_check.specs.Rows.{clauses_of, rows_of};
    ghost use Rattle.std.specs.Prelude.{◌≡◌, List};

    ghost Value = { List Clause };

    ghost view = { λ r. clauses_of r.table };

    ghost invariant = { λ r. r.table ≡ rows_of (clauses_of r.table) };
}

impl Rows {
    /// No clause.
    pub fn make(alloc: Global) -> Result<Rows, Memory>
        ensures { IfOk result (λ rows. rows ≡ []) }
    {
        let mut table = Table::make(alloc);
        table.push_none()?;
        Ok(Rows { table })
    }

    /// The clauses of a list.
    pub fn of(alloc: Global, clauses: &[Clause]) -> Result<Rows, Memory>
        requires { length clauses.now < 2 ^ 32 }
        ensures { IfOk result (λ rows. rows ≡ clauses.now) }
    {
        let mut rows = Rows::make(alloc)?;
        for clause in clauses {
            rows.take(alloc, clause.lits.slice())?;
        }
        Ok(rows)
    }

    /// The table.
    pub fn into_table(self) -> Table
        ensures { result ≡ rows_of self }
    {
        self.table
    }
}

impl ClauseSink for Rows {
    ghost taken = { λ rows. rows };

    fn take(&mut self, _alloc: Global, lits: &[Lit]) -> Result<(), Memory> {
        self.table.push(lits)
    }

    fn count(&self) -> u64 {
        (self.table.len() - 1) as u64
    }

    fn literal_count(&self) -> u64 {
        self.table.literal_count() as u64
    }
}
