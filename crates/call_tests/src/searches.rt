//! A search over the eight clauses with three literals over three variables, and one clause more,
//! which its log adds 1,499 times again.
ghost use Rattle.clean_logs.specs.CleanLogs.{additions};
ghost use Rattle.clean_logs.specs.Laws.{HasItsVariables};
ghost use Rattle.proof_check.specs.Logs.{adds_empty};
ghost use Rattle.sat_core.specs.Trails.{IsOf};
ghost use Rattle.std.specs.List.{list_any};
ghost use Rattle.std.specs.Prelude.{◌≡◌, ◌+◌, ◌≤◌, ◌<◌, ◌^◌, All, length, IfOk, OnOk, IsFalse};

use arc_base::limits::VARIABLE_LIMIT;
use arc_base::{List, Memory};
use cnf_types::{Formula, Lit, formula};
use proof_check::Checker;
use proof_log::{Log, Step};
use sat_core::Core;
use sat_search::{Found, core_of, search};
use std::alloc::Global;
use std::test::Fail;

const D: Lit = Lit { code: 8 };

const E: Lit = Lit { code: 10 };

const F: Lit = Lit { code: 12 };

const FORMULA: &str = "p cnf 6 9
1 2 3 0
1 2 -3 0
1 -2 3 0
1 -2 -3 0
-1 2 3 0
-1 2 -3 0
-1 -2 3 0
-1 -2 -3 0
4 5 6 0
";

/// Adds a clause to a core under the next id.
fn put(core: &mut Core, lits: &[Lit]) -> Result<(), Memory>
    requires level { core.old.level ≡ 0 }
    requires range { All (IsOf core.old.vars) lits.now }
    requires few { length lits.now ≤ 3 }
    requires known { All (λ c. c.id ≤ core.old.last_id) core.old.clauses }
    requires ids { core.old.last_id < 2000 }
    ensures level { OnOk result (core.new.level ≡ 0) }
    ensures vars { OnOk result (core.new.vars ≡ core.old.vars) }
    ensures last_id { OnOk result (core.new.last_id ≡ core.old.last_id + 1) }
    ensures known { OnOk result (All (λ c. c.id ≤ core.new.last_id) core.new.clauses) }
{
    let id = core.last_id() + 1;
    core.add(id, lits)?;
    Ok(())
}

/// A step that adds the last clause again.
fn again(alloc: Global, id: u64) -> Result<Step, Memory>
    ensures { IfOk result (λ step. IsFalse (adds_empty step)) }
{
    Ok(Step::Add {
        id,
        lits: List::of(Vec::from_slice(alloc, &[D, E, F])?)?,
        hints: List::of(Vec::from_slice(alloc, &[9])?)?,
    })
}

/// The log that adds the last clause 1,499 times again, and the core with all these clauses.
fn core_and_log(alloc: Global, formula: &Formula) -> Result<(Core, Log), Memory>
    requires variables { HasItsVariables formula.now }
    requires few { formula.now.vars ≤ VARIABLE_LIMIT }
    ensures level { IfOk result (λ r. r.0.level ≡ 0) }
    ensures last_id { IfOk result (λ r. r.0.last_id ≤ 2000) }
    ensures room { IfOk result (λ r. additions r.1.steps < 2000) }
    ensures filled { IfOk result (λ r. IsFalse (list_any adds_empty r.1.steps)) }
    ensures short { IfOk result (λ r. length r.1.steps < 2 ^ 31) }
{
    let mut core = core_of(alloc, formula)?;
    if core.vars() != 6 || core.last_id() != 9 {
        return Err(Memory);
    }
    let mut log = Log {
        steps: List::make(alloc),
    };
    for id in 10..1509 {
        put(&mut core, &[D, E, F])?;
        log.steps.push(again(alloc, id)?)?;
    }
    Ok((core, log))
}

/// Whether the steps add a clause that is not empty as their 1,500th, and then drop from 1 to 250
/// clauses with ids from 10 to 509.
fn drops_old(steps: &[Step]) -> bool {
    match (steps.get(1499), steps.get(1500)) {
        (Some(Step::Add { lits, .. }), Some(Step::Drop { ids })) => {
            let mut old = ids.slice().iter();
            let is_right = old.all(|id| *id >= 10 && *id <= 509);
            !lits.is_empty() && is_right && ids.len() >= 1 && ids.len() <= 250
        }
        _ => false,
    }
}

/// Whether each step of a log is accepted.
fn is_accepted(alloc: Global, formula: &Formula, log: &Log) -> Result<bool, Memory> {
    let mut checker = Checker::make(alloc, formula, None, &List::make(alloc))?;
    for step in log.steps.slice() {
        if checker.step(step).is_err() {
            return Ok(false);
        }
    }
    Ok(true)
}

/// A search goes on where there is no memory to compact its clauses, so that only the call itself
/// shows that there is.
#[test]
fn lemmas_are_dropped_after_1500(rt: HostRuntime) -> Result<(), Fail> {
    let alloc = rt.alloc();
    let formula = formula(alloc, FORMULA.as_bytes())?;
    let (mut core, mut log) = core_and_log(alloc, &formula)?;
    let found = search(alloc, &mut core, &mut log, 2000)?;
    assert!(rt; matches!(found, Found::Refuted));
    assert!(rt; drops_old(log.steps.slice()));
    assert!(rt; is_accepted(alloc, &formula, &log)?);
    core.compact()?;
    Ok(())
}
