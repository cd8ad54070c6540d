//! The core that a search over a formula begins with. The cost is that of the formula's literals.
ghost use Rattle.clean_logs.specs.Laws.{HasItsVariables};
ghost use Rattle.sat_search.specs.Cores.{core_of};
ghost use Rattle.std.specs.Prelude.{◌≡◌, ◌<◌, ◌≤◌, ◌^◌, length, IfOk};

use arc_base::Memory;
use arc_base::limits::VARIABLE_LIMIT;
use cnf_types::Formula;
use sat_core::Core;
use std::alloc::Global;

/// A core with the clauses of the formula, under the ids from 1 on.
pub fn core_of(alloc: Global, formula: &Formula) -> Result<Core, Memory>
    requires variables { HasItsVariables formula.now }
    requires few { formula.now.vars ≤ VARIABLE_LIMIT }
    ensures core { IfOk result (λ core. core ≡ core_of formula.now) }
    ensures few { IfOk result (λ core. length formula.now.clauses < 2 ^ 32) }
{
    let mut core = Core::make(alloc, formula.vars)?;
    for (place, clause) in formula.clauses.slice().iter().enumerate() {
        core.add(place as u64 + 1, clause.lits.slice())?;
    }
    Ok(core)
}
