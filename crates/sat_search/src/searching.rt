//! The search.
ghost use Rattle.clean_logs.specs.CleanLogs.{IsClean, IsSpent, added_by, dropped_by, additions};
ghost use Rattle.cnf_types.specs.declared.clauses.Formula.{Formula};
ghost use Rattle.cnf_types.specs.declared.literal.Lit.{Lit};
ghost use Rattle.proof_check.specs.Knowledge.{Knowledge, start};
ghost use Rattle.proof_check.specs.Logs.{adds_empty, after_all, IsAccepted, IsRefuting};
ghost use Rattle.proof_log.specs.Texts.{HasLine};
ghost use Rattle.sat_core.specs.Trails.{IsOf};
ghost use Rattle.sat_search.specs.DropSteps.{wait_of, DropsInTime, DropsHalf};
ghost use Rattle.sat_search.specs.Live.{clause_in};
ghost use Rattle.sat_search.specs.Searches.{appended, ends_empty, live_after};
ghost use Rattle.sat_search.specs.Searches.{AddsFrom, DropsOld, HasLiveHints, IfModel, IsModelOf};
ghost use Rattle.sat_search.specs.Searches.{KeepsOthers, Knows, Searched};
ghost use Rattle.std.specs.List.{list_any};
ghost use Rattle.std.specs.Prelude.{◌≡◌, ◌+◌, ◌≤◌, ◌<◌, ◌^◌, ◌++◌, ◌↔◌, ℕ, Option, List as Items};
ghost use Rattle.std.specs.Prelude.{[], All, length, IsTrue, IsFalse, IfOk};

use crate::counting::additions;
use crate::found::Found;
use crate::learner::Learner;
use crate::values::values;
use arc_base::Memory;
use arc_base::limits::CONFLICT_LIMIT;
use cnf_types::Lit;
use proof_log::Log;
use run_progress::{Listener, Nobody, Work};
use sat_core::Core;
use std::alloc::Global;

/// Looks for a model of the core's clauses. At each conflict it learns a lemma, which it adds to
/// the core and, as a step with its hints, to the log; it ends where the lemma is empty, and where
/// the log adds `limit` clauses already. From time to time it drops lemmas of the log, which is a
/// step too: the j-th such step comes as soon as 1,500 j clauses were added since the one before
/// it, and leaves the last 1,000 j, those of one or two literals, and half of the others; if it may
/// drop none, it is tried again after 1,500 more. `Memory` also if there are 2^32 - 1 clauses or
/// more.
pub fn search(alloc: Global, core: &mut Core, log: &mut Log, limit: u64) -> Result<Found, Memory>
    requires level { core.old.level ≡ 0 }
    requires numbers { core.old.last_id + limit < 2 ^ 63 }
    requires few { limit ≤ CONFLICT_LIMIT }
    requires room { additions log.old.steps < limit }
    requires filled { IsFalse (list_any adds_empty log.old.steps) }
    requires short { length log.old.steps < 2 ^ 31 }
    ensures keeps { log.new.steps ≡ log.old.steps ++ appended log.old.steps log.new.steps }
    ensures ids { AddsFrom core.old.last_id (appended log.old.steps log.new.steps) }
    ensures dropped { DropsOld (added_by [] log.old.steps) (dropped_by 0 log.old.steps)
        (appended log.old.steps log.new.steps) }
    ensures in_time { DropsInTime (dropped_by 0 log.old.steps) (wait_of log.old.steps)
        (appended log.old.steps log.new.steps) }
    ensures halves { DropsHalf (clause_in core.old.clauses) (added_by [] log.old.steps)
        (dropped_by 0 log.old.steps) (appended log.old.steps log.new.steps) }
    ensures few_drops { dropped_by 0 (appended log.old.steps log.new.steps)
        ≤ additions (appended log.old.steps log.new.steps) }
    ensures accepted { (k : Knowledge) → Knows k core.old →
        IsAccepted k (appended log.old.steps log.new.steps) }
    ensures hints { (k : Knowledge) → Knows k core.old →
        HasLiveHints k (appended log.old.steps log.new.steps) }
    ensures limit { additions log.new.steps ≤ limit }
    ensures lines { All (λ c. 1 ≤ c.id) core.old.clauses → All HasLine log.old.steps →
        All HasLine log.new.steps }
    ensures refuted { IfOk result (λ found. (found ≡ Found.Refuted) ↔
        IsTrue (ends_empty (appended log.old.steps log.new.steps))) }
    ensures refuting { IfOk result (λ found. found ≡ Found.Refuted → IsRefuting log.new.steps) }
    ensures exhausted { IfOk result (λ found. found ≡ Found.Budget →
        additions log.new.steps ≡ limit) }
    ensures none_empty { IfOk result (λ found. found ≡ Found.Budget →
        IsFalse (list_any adds_empty log.new.steps)) }
    ensures model { IfOk result (λ found. IfModel found (IsModelOf core.new)) }
    ensures clauses { IfOk result (λ found. IfModel found (λ values. (id : ℕ) →
        clause_in core.new.clauses id
        ≡ live_after (clause_in core.old.clauses) (appended log.old.steps log.new.steps) id)) }
    ensures others { IfOk result (λ found. IfModel found (λ values.
        KeepsOthers (added_by [] log.old.steps) core.old.clauses core.new.clauses)) }
    ensures knows { IfOk result (λ found. IfModel found (λ values. (k : Knowledge) →
        Knows k core.old → Knows (after_all k (appended log.old.steps log.new.steps)) core.new)) }
    ensures last_id { IfOk result (λ found. IfModel found (λ values.
        core.new.last_id ≡ core.old.last_id + additions (appended log.old.steps log.new.steps))) }
    ensures level { core.new.level ≡ 0 }
    ensures vars { IfOk result (λ found. IfModel found (λ values. core.new.vars ≡ core.old.vars)) }
    ensures clean { (f : Formula) (least : Option ℕ) (tops : Items Lit) →
        Knows (after_all (start f least tops) log.old.steps) core.old
        → IsClean f least tops log.old.steps
        → IfOk result (λ found. IfModel found (λ values. IsClean f least tops log.new.steps)) }
    ensures spent { (f : Formula) (least : Option ℕ) (tops : Items Lit) →
        Knows (after_all (start f least tops) log.old.steps) core.old
        → IsClean f least tops log.old.steps
        → IfOk result (λ found. found ≡ Found.Budget → IsSpent f least tops limit log.new.steps) }
{
    search_first(alloc, core, &[], log, limit, &mut Nobody)
}

/// Looks for a model as `search` does, with other decisions: it begins by making the first of the
/// literals `first` false that is not true at level 0, where it is unset. Once lemmas show that it
/// is true, it goes on with the next one; so no lemma rests on these decisions. The listener hears
/// of each hundredth conflict.
pub fn search_first<L: Listener>(
    alloc: Global,
    core: &mut Core,
    first: &[Lit],
    log: &mut Log,
    limit: u64,
    listener: &mut L,
) -> Result<Found, Memory>
    requires first { All (IsOf core.old.vars) first.now }
    requires level { core.old.level ≡ 0 }
    requires numbers { core.old.last_id + limit < 2 ^ 63 }
    requires few { limit ≤ CONFLICT_LIMIT }
    requires room { additions log.old.steps < limit }
    requires filled { IsFalse (list_any adds_empty log.old.steps) }
    requires short { length log.old.steps < 2 ^ 31 }
    ensures keeps { log.new.steps ≡ log.old.steps ++ appended log.old.steps log.new.steps }
    ensures ids { AddsFrom core.old.last_id (appended log.old.steps log.new.steps) }
    ensures dropped { DropsOld (added_by [] log.old.steps) (dropped_by 0 log.old.steps)
        (appended log.old.steps log.new.steps) }
    ensures in_time { DropsInTime (dropped_by 0 log.old.steps) (wait_of log.old.steps)
        (appended log.old.steps log.new.steps) }
    ensures halves { DropsHalf (clause_in core.old.clauses) (added_by [] log.old.steps)
        (dropped_by 0 log.old.steps) (appended log.old.steps log.new.steps) }
    ensures few_drops { dropped_by 0 (appended log.old.steps log.new.steps)
        ≤ additions (appended log.old.steps log.new.steps) }
    ensures accepted { (k : Knowledge) → Knows k core.old →
        IsAccepted k (appended log.old.steps log.new.steps) }
    ensures hints { (k : Knowledge) → Knows k core.old →
        HasLiveHints k (appended log.old.steps log.new.steps) }
    ensures limit { additions log.new.steps ≤ limit }
    ensures lines { All (λ c. 1 ≤ c.id) core.old.clauses → All HasLine log.old.steps →
        All HasLine log.new.steps }
    ensures refuted { IfOk result (λ found. (found ≡ Found.Refuted) ↔
        IsTrue (ends_empty (appended log.old.steps log.new.steps))) }
    ensures refuting { IfOk result (λ found. found ≡ Found.Refuted → IsRefuting log.new.steps) }
    ensures exhausted { IfOk result (λ found. found ≡ Found.Budget →
        additions log.new.steps ≡ limit) }
    ensures none_empty { IfOk result (λ found. found ≡ Found.Budget →
        IsFalse (list_any adds_empty log.new.steps)) }
    ensures model { IfOk result (λ found. IfModel found (IsModelOf core.new)) }
    ensures clauses { IfOk result (λ found. IfModel found (λ values. (id : ℕ) →
        clause_in core.new.clauses id
        ≡ live_after (clause_in core.old.clauses) (appended log.old.steps log.new.steps) id)) }
    ensures others { IfOk result (λ found. IfModel found (λ values.
        KeepsOthers (added_by [] log.old.steps) core.old.clauses core.new.clauses)) }
    ensures knows { IfOk result (λ found. IfModel found (λ values. (k : Knowledge) →
        Knows k core.old → Knows (after_all k (appended log.old.steps log.new.steps)) core.new)) }
    ensures last_id { IfOk result (λ found. IfModel found (λ values.
        core.new.last_id ≡ core.old.last_id + additions (appended log.old.steps log.new.steps))) }
    ensures level { core.new.level ≡ 0 }
    ensures vars { IfOk result (λ found. IfModel found (λ values. core.new.vars ≡ core.old.vars)) }
    ensures clean { (f : Formula) (least : Option ℕ) (tops : Items Lit) →
        Knows (after_all (start f least tops) log.old.steps) core.old
        → IsClean f least tops log.old.steps
        → IfOk result (λ found. IfModel found (λ values. IsClean f least tops log.new.steps)) }
    ensures spent { (f : Formula) (least : Option ℕ) (tops : Items Lit) →
        Knows (after_all (start f least tops) log.old.steps) core.old
        → IsClean f least tops log.old.steps
        → IfOk result (λ found. found ≡ Found.Budget → IsSpent f least tops limit log.new.steps) }
{
    let found = run(alloc, core, first, log, limit, listener);
    core.back_to(0);
    found
}

/// Reports each hundredth conflict to the listener.
fn report<L: Listener>(listener: &mut L, conflicts: u64) {
    if conflicts % 100 == 0 {
        listener.heard(Work::Searching { conflicts });
    }
}

/// Propagates and decides until there is a conflict, learns from it, drops lemmas where it is time,
/// and begins again.
fn run<L: Listener>(
    alloc: Global,
    core: &mut Core,
    first: &[Lit],
    log: &mut Log,
    limit: u64,
    listener: &mut L,
) -> Result<Found, Memory>
    requires first { All (IsOf core.old.vars) first.now }
    requires level { core.old.level ≡ 0 }
    requires numbers { core.old.last_id + limit < 2 ^ 63 }
    requires few { limit ≤ CONFLICT_LIMIT }
    requires room { additions log.old.steps < limit }
    requires short { length log.old.steps < 2 ^ 31 }
    ensures { Searched core.old log.old.steps limit core.new log.new.steps result }
{
    let mut learner = Learner::make(alloc, core.vars(), log.steps.slice())?;
    let mut added = additions(log.steps.slice());
    loop {
        let Some(conflict) = learner.order.dive(core, first) else {
            return Ok(Found::Model(values(alloc, core)?));
        };
        if added == limit {
            return Ok(Found::Budget);
        }
        if learner.learn(core, log, conflict)? {
            return Ok(Found::Refuted);
        }
        learner.drop_lemmas(core, log)?;
        added += 1;
        report(listener, added);
    }
}
