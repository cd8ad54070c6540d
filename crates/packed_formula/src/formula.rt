//! A formula over packed clauses.
ghost use Rattle.std.specs.Prelude.{◌≡◌, IfOk};

use crate::clauses::PackedClauses;
use arc_base::Memory;
use cnf_types::Formula;
use std::alloc::Global;
use std::marker::Model;

/// Packed clauses over the variables from 1 to `vars`. Contracts see the formula.
#[derive(Debug, Drop)]
pub struct PackedFormula {
    vars: u64,
    clauses: PackedClauses,
}

impl Model for PackedFormula {
    ghost use Rattle.cnf_types.specs.declared.clauses.Formula.{Formula as Whole};

    ghost Value = { Whole };

    ghost view = { λ p. record { vars = p.vars; clauses = p.clauses } };
}

impl PackedFormula {
    /// The formula of these clauses.
    pub fn of(vars: u64, clauses: PackedClauses) -> PackedFormula
        ensures { result ≡ record { vars = vars; clauses = clauses } }
    {
        PackedFormula { vars, clauses }
    }

    /// The number of variables.
    pub fn vars(&self) -> u64
        ensures { result ≡ self.now.vars }
    {
        self.vars
    }

    /// The clauses.
    pub fn clauses(&self) -> &PackedClauses
        ensures { result.now ≡ self.now.clauses }
    {
        &self.clauses
    }

    /// The formula, each clause with a list of its own.
    pub fn unpacked(&self, alloc: Global) -> Result<Formula, Memory>
        ensures { IfOk result (λ formula. formula ≡ self.now) }
    {
        Ok(Formula {
            vars: self.vars,
            clauses: self.clauses.unpacked(alloc)?,
        })
    }
}
