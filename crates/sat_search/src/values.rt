//! The values that a trail gives all variables.
ghost use Rattle.sat_core.specs.Rest.{IsAtRest};
ghost use Rattle.sat_core.specs.States.{IsSound};
ghost use Rattle.sat_core.specs.Trails.{is_on, IsOf};
ghost use Rattle.sat_search.specs.Orders.{is_set};
ghost use Rattle.sat_search.specs.Searches.{IsModelOf};
ghost use Rattle.std.specs.Prelude.{◌≡◌, ◌≤◌, ◌<◌, ◌-◌, ℕ, IsTrue, IfOk, false, true};

use arc_base::{List, Memory};
use cnf_types::Lit;
use sat_core::Core;
use sat_core::laws::resting_trails_satisfy;
use std::alloc::Global;

/// Whether a literal is true.
fn is_true(core: &Core, lit: Lit) -> bool
    requires sound { IsSound core.now }
    requires range { IsOf core.now.vars lit }
    ensures { result ≡ is_on core.now.trail lit }
{
    core.value(lit).unwrap_or(false)
}

/// The values of all variables, which are set, while propagation is complete.
pub(crate) fn values(alloc: Global, core: &Core) -> Result<List<bool>, Memory>
    requires sound { IsSound core.now }
    requires rest { IsAtRest core.now.clauses (is_on core.now.trail) }
    requires all_set { (var : ℕ) → 1 ≤ var → var ≤ core.now.vars →
        IsTrue (is_set core.now.trail var) }
    ensures { IfOk result (IsModelOf core.now) }
{
    resting_trails_satisfy();
    let vars = core.vars();
    let mut values = Vec::with_capacity(alloc, vars as usize)?;
    for var in 1..vars + 1 {
        values.push(is_true(core, Lit::make(var, true)))?;
    }
    List::of(values)
}
