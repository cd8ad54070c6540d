//! What a search keeps between its conflicts, and what it does at one: conflict analysis, and the
//! step back to the level where the lemma implies a literal.
ghost use Rattle.proof_log.specs.declared.steps.Log.{Log};
ghost use Rattle.sat_core.specs.States.{IsSound};
ghost use Rattle.sat_core.specs.Trails.{clause_at, IsOf, IsFalsified};
ghost use Rattle.sat_search.specs.Costs.{Rise};
ghost use Rattle.sat_search.specs.DropSteps.{after_one};
ghost use Rattle.sat_search.specs.Dropping.{Drops, HalvesDroppable, WaitsAgain};
ghost use Rattle.sat_search.specs.Learners.{IsReady};
ghost use Rattle.sat_search.specs.Live.{clause_in};
ghost use Rattle.sat_search.specs.Orders.{IsOrder, IsFresh, HoldsUnset};
ghost use Rattle.sat_search.specs.Restarting.{after_conflict, ends_gap};
ghost use Rattle.sat_search.specs.Searches.{Gains, IsLearnt, Teaches};
ghost use Rattle.std.specs.Prelude.{◌≡◌, ◌≢◌, ◌+◌, ◌*◌, ◌≤◌, ◌<◌, ◌-◌, ◌^◌, All, AllPairs, length};
ghost use Rattle.std.specs.Prelude.{IsSomeAnd, IfOk, OnOk, OnErr, IsTrue, ◌==◌, ◌||◌, ◌⊎◌};

use crate::lemmas::Lemmas;
use crate::lesson::{Lesson, level_of_false};
use crate::marks::Marks;
use crate::order::Order;
use crate::restarts::Restarts;
use crate::sparing::Spares;
use arc_base::{List, Memory};
use cnf_types::Lit;
use proof_log::{Log, Step};
use sat_core::{Core, Held};
use std::alloc::Global;

/// What a search keeps between its conflicts: no mark is set then.
#[derive(Debug, Drop)]
pub(crate) struct Learner {
    pub alloc: Global,
    pub marks: Marks,
    pub spares: Spares,
    pub order: Order,
    pub restarts: Restarts,
    pub lemmas: Lemmas,
}

impl Learner {
    /// What a search that goes on from a log begins with.
    pub fn make(alloc: Global, vars: u64, steps: &[Step]) -> Result<Learner, Memory>
        requires { vars < 2 ^ 25 }
        ensures ready { IfOk result (IsReady vars steps.now) }
        ensures fresh { IfOk result (λ learner. IsFresh vars learner.order) }
    {
        Ok(Learner {
            alloc,
            marks: Marks::make(alloc, vars)?,
            spares: Spares::make(alloc, vars)?,
            order: Order::make(alloc, vars)?,
            restarts: Restarts::make(),
            lemmas: Lemmas::of(alloc, steps)?,
        })
    }

    /// Learns from a conflict: the lemma joins the core, at the level on which it implies a literal
    /// or at level 0, and the log. Answers whether it is empty.
    pub fn learn(&mut self, core: &mut Core, log: &mut Log, conflict: Held) -> Result<bool, Memory>
        requires ready { IsReady core.old.vars log.old.steps self.old }
        requires waiting { HoldsUnset core.old.vars core.old.trail self.old.order }
        requires conflict { IsSomeAnd (clause_at core.old.clauses conflict)
            (IsFalsified core.old.trail) }
        requires ids { core.old.last_id + 1 < 2 ^ 63 }
        requires short { length log.old.steps < 2 ^ 32 - 1 }
        ensures ready { IfOk result (λ empty. IsReady core.new.vars log.new.steps self.new) }
        ensures waiting { IfOk result (λ empty.
            HoldsUnset core.new.vars core.new.trail self.new.order) }
        ensures teaches { IfOk result (Teaches core.old log.old.steps core.new log.new.steps) }
        ensures restarts { IfOk result (λ empty.
            self.new.restarts ≡ after_conflict self.old.restarts) }
        ensures wait { IfOk result (λ empty.
            self.new.lemmas.wait ≡ after_one self.old.lemmas.wait) }
        ensures anew { IsTrue (ends_gap self.old.restarts || (self.old.lemmas.wait == 1)) →
            IfOk result (λ empty. core.new.level ≡ 0) }
        ensures err { OnErr result (log.new.steps ≡ log.old.steps) }
    {
        let lesson = Lesson::of(
            self.alloc,
            &mut self.marks,
            &mut self.spares,
            core,
            conflict,
        )?;
        self.order.remember(core.vars(), &lesson.met);
        let (lits, hints) = lesson.into_parts()?;
        let levels = joined_levels(core, lits.slice());
        let level = if self.restarts.is_due() || self.lemmas.is_due_with_next() {
            0
        } else {
            second_level(core, lits.slice())
        };
        self.order.take_back(core, level);
        self.lemmas.add(core.last_id() + 1, levels)?;
        enter(core, &mut self.order, log, lits, hints)
    }

    /// Drops lemmas, where it is time and the level is 0.
    pub fn drop_lemmas(&mut self, core: &mut Core, log: &mut Log) -> Result<(), Memory>
        requires ready { IsReady core.old.vars log.old.steps self.old }
        requires different { AllPairs (λ c d. c.id ≢ d.id) core.old.clauses }
        requires short { length log.old.steps < 2 ^ 32 - 1 }
        ensures ready { OnOk result (IsReady core.new.vars log.new.steps self.new) }
        ensures drops { OnOk result (Drops core.old log.old.steps core.new log.new.steps) }
        ensures half { Rise self.old.lemmas.ids.items → self.old.lemmas.wait ≡ 0 →
            core.old.level ≡ 0 →
            OnOk result (HalvesDroppable self.old.lemmas core.old core.new) }
        ensures waits { self.old.lemmas.wait ≡ 0 → core.old.level ≡ 0 →
            OnOk result (WaitsAgain self.old.lemmas self.new.lemmas log.new.steps) }
        ensures later { (0 < self.old.lemmas.wait) ⊎ (0 < core.old.level) →
            (self.new ≡ self.old) × (core.new ≡ core.old) }
        ensures restarts { self.new.restarts ≡ self.old.restarts }
        ensures order { self.new.order ≡ self.old.order }
        ensures err { OnErr result (log.new.steps ≡ log.old.steps) }
    {
        if !self.lemmas.is_due() || core.level() > 0 {
            return Ok(());
        }
        self.lemmas.drop_half(core, log)
    }
}

/// The number of decision levels in the clause (LBD), whose literals are sorted by level.
fn joined_levels(core: &Core, lits: &[Lit]) -> u32
    requires sound { IsSound core.now }
    requires range { All (IsOf core.now.vars) lits.now }
{
    let mut levels: u32 = 0;
    let mut last = u32::MAX;
    for lit in lits {
        let level = level_of_false(core, *lit);
        if level != last {
            levels = levels.saturating_add(1);
            last = level;
        }
    }
    levels
}

/// The level of the second literal of a lemma, which is the greatest but that of the first, and 0
/// where there is none.
fn second_level(core: &Core, lits: &[Lit]) -> u32
    requires sound { IsSound core.now }
    requires range { All (IsOf core.now.vars) lits.now }
    ensures { result ≤ core.now.level }
{
    if lits.len() < 2 {
        return 0;
    }
    level_of_false(core, lits[1]).min(core.level())
}

/// Adds a lemma to the core, on the current level where it implies its first literal there, and on
/// level 0 otherwise.
fn join(core: &mut Core, order: &mut Order, id: u64, lits: &[Lit]) -> Result<(), Memory>
    requires order { IsOrder core.old.vars order.old }
    requires waiting { HoldsUnset core.old.vars core.old.trail order.old }
    requires range { All (IsOf core.old.vars) lits.now }
    requires few_literals { length lits.now < 2 ^ 32 }
    requires few_clauses { length core.old.clauses < 2 ^ 32 - 1 }
    requires fresh { All (λ c. c.id ≢ id) core.old.clauses }
    ensures order { IsOrder core.old.vars order.new }
    ensures waiting { OnOk result (HoldsUnset core.new.vars core.new.trail order.new) }
    ensures gains { OnOk result (Gains core.old id lits.now core.new) }
    ensures level { OnOk result (core.new.level ≤ core.old.level) }
{
    if core.is_asserting(lits) {
        return core.learn(id, lits);
    }
    order.take_back(core, 0);
    core.add(id, lits)
}

/// Adds a lemma to the core under the next id, and to the log. Answers whether it is empty.
fn enter(
    core: &mut Core,
    order: &mut Order,
    log: &mut Log,
    lits: List<Lit>,
    hints: List<i64>,
) -> Result<bool, Memory>
    requires order { IsOrder core.old.vars order.old }
    requires waiting { HoldsUnset core.old.vars core.old.trail order.old }
    requires ids { core.old.last_id + 1 < 2 ^ 63 }
    requires known { All (λ c. c.id ≤ core.old.last_id) core.old.clauses }
    requires short { length log.old.steps < 2 ^ 32 - 1 }
    requires learnt { IsLearnt (clause_in core.old.clauses) core.old.vars lits hints }
    ensures order { IsOrder core.old.vars order.new }
    ensures waiting { IfOk result (λ empty. HoldsUnset core.new.vars core.new.trail order.new) }
    ensures teaches { IfOk result (Teaches core.old log.old.steps core.new log.new.steps) }
    ensures level { IfOk result (λ empty. core.new.level ≤ core.old.level) }
    ensures err { OnErr result (log.new.steps ≡ log.old.steps) }
{
    if core.clauses() == u32::MAX {
        return Err(Memory);
    }
    let id = core.last_id() + 1;
    let empty = lits.is_empty();
    join(core, order, id, lits.slice())?;
    log.steps.push(Step::Add { id, lits, hints })?;
    Ok(empty)
}
