//! The lemmas of a log, and when and which of them are dropped. A search with fewer lemmas looks at
//! fewer clauses; those that join few levels, or were used lately, are worth most. Which are
//! dropped changes nothing but speed.
ghost use Rattle.sat_core.specs.Forgotten.{IsNoReason};
ghost use Rattle.sat_core.specs.Trails.{clause_at, id_at};
ghost use Rattle.sat_search.specs.Costs.{cost_of, costing, counts, droppable, is_as_much, one_if};
ghost use Rattle.sat_search.specs.Costs.{may_be_named, AreSetToo, is_hint_of, uses, Rise};
ghost use Rattle.sat_search.specs.DropSteps.{after_one, gap_after, is_long};
ghost use Rattle.sat_search.specs.Dropping.{AreLemmas, Drops, Forgets, ForgetsMore, sizes};
ghost use Rattle.sat_search.specs.Dropping.{old_lemmas, HalvesDroppable, WaitsAgain};
ghost use Rattle.sat_search.specs.Live.{clause_in};
ghost use Rattle.std.specs.List.{list_any};
ghost use Rattle.std.specs.List.Sorted.{IsNonDecreasing};
ghost use Rattle.std.specs.Prelude.{◌≡◌, ◌≢◌, ◌+◌, ◌-◌, ◌*◌, ◌<◌, ◌≤◌, ◌^◌, ◌∷◌, ◌++◌, []};
ghost use Rattle.std.specs.Prelude.{length, take, All, AllPairs, Contains, Some, IsSome, IfSome};
ghost use Rattle.std.specs.Prelude.{IsSomeAnd, IfOk, OnOk, OnErr, slice_get, ◌==◌, ◌/◌, ℕ};
ghost use Rattle.std.specs.Prelude.{count_by, sum_by, slice_index_or, true};

use arc_base::{List, Memory};
use clean_logs::KEPT_LEMMAS;
use proof_log::{Log, Step};
use sat_core::{Core, Held};
use std::alloc::Global;

/// The j-th drop step comes after `ADDED * j` added clauses, counted from the drop step before it.
const ADDED: u64 = 1500;

/// What is added to the worth of a lemma that was not used lately.
const UNUSED: u64 = 1 << 32;

/// The lemmas of a log: their ids in the order in which they were added, and the levels that each
/// one joined.
#[derive(Debug, Drop)]
pub(crate) struct Lemmas {
    pub alloc: Global,
    pub ids: Vec<u64>,
    pub levels: Vec<u32>,
    /// How many steps of the log drop clauses.
    pub drops: u64,
    /// How many clauses are to be added until lemmas are dropped next.
    pub wait: u64,
    /// The step of the log that follows the last one that dropped clauses.
    pub from: u32,
}

impl Lemmas {
    /// The lemmas of a log. Of a lemma that is there already only its literals are known, whose
    /// number is taken for the levels that it joined; and all steps show which lemmas were used
    /// lately.
    pub fn of(alloc: Global, steps: &[Step]) -> Result<Lemmas, Memory>
        ensures lemmas { IfOk result (AreLemmas steps.now) }
        ensures levels { IfOk result (λ lemmas. lemmas.levels.items ≡ sizes steps.now) }
        ensures from { IfOk result (λ lemmas. lemmas.from ≡ 0) }
    {
        let mut lemmas = Lemmas {
            alloc,
            ids: Vec::new(alloc),
            levels: Vec::new(alloc),
            drops: 0,
            wait: ADDED,
            from: 0,
        };
        for step in steps {
            match step {
                Step::Add { id, lits, .. } => lemmas.add(*id, lits.len())?,
                Step::Drop { .. } => lemmas.dropped(),
                Step::Bound { .. } => {}
            }
        }
        Ok(lemmas)
    }

    /// A lemma joins the log. Where it was time to drop some and none could be, this is the first
    /// of those after which it is tried again.
    pub fn add(&mut self, id: u64, levels: u32) -> Result<(), Memory>
        ensures ids { OnOk result (self.new.ids.items ≡ self.old.ids.items ++ id ∷ []) }
        ensures levels { OnOk result
            (self.new.levels.items ≡ self.old.levels.items ++ levels ∷ []) }
        ensures wait { OnOk result (self.new.wait ≡ after_one self.old.wait) }
        ensures drops { self.new.drops ≡ self.old.drops }
        ensures from { self.new.from ≡ self.old.from }
    {
        self.ids.push(id)?;
        self.levels.push(levels)?;
        self.wait = if self.wait == 0 {
            ADDED - 1
        } else {
            self.wait - 1
        };
        Ok(())
    }

    /// Lemmas were dropped.
    fn dropped(&mut self)
        requires { self.old.drops + 1 < 2 ^ 64 }
        ensures { self.new ≡ record self.old
            { drops = self.old.drops + 1; wait = gap_after (self.old.drops + 1) } }
    {
        self.drops += 1;
        self.wait = ADDED.saturating_mul(self.drops).saturating_add(ADDED);
    }

    /// Whether lemmas are to be dropped once another one is added.
    pub fn is_due_with_next(&self) -> bool
        ensures { result ≡ (self.now.wait == 1) }
    {
        self.wait == 1
    }

    /// Whether lemmas are to be dropped now.
    pub fn is_due(&self) -> bool
        ensures { result ≡ (self.now.wait == 0) }
    {
        self.wait == 0
    }

    /// How many of the lemmas, the first ones, are old enough.
    fn old(&self) -> usize
        ensures { result ≡ old_lemmas self.now }
    {
        let kept = KEPT_LEMMAS
            .saturating_mul(self.drops)
            .saturating_add(KEPT_LEMMAS) as usize;
        self.ids.len().saturating_sub(kept)
    }

    /// Where a clause is among the first `old` lemmas, if it is, by a binary search: the ids of a
    /// log's lemmas rise.
    fn place_of(&self, id: u64, old: usize) -> Option<usize>
        ensures place { IfSome result (λ place.
            (place < old) × (slice_get self.now.ids.items place ≡ Some id)) }
        ensures found { Rise self.now.ids.items → (place : ℕ) → place < old →
            slice_get self.now.ids.items place ≡ Some id → result ≡ Some place }
    {
        let first = &self.ids[..old.min(self.ids.len())];
        first.binary_search(&id).ok()
    }

    /// Which of the first lemmas the hints of these steps name.
    fn used(&self, steps: &[Step], old: usize) -> Result<Vec<bool>, Memory>
        ensures size { IfOk result (λ used. length used.items ≡ old) }
        ensures used { Rise self.now.ids.items → IfOk result (λ used. (place id : ℕ) →
            place < old → slice_get self.now.ids.items place ≡ Some id →
            slice_index_or used.items place true ≡ list_any (uses id) steps.now) }
    {
        let mut used = vec![in self.alloc; false; old]?;
        for step in steps {
            self.use_hints(used.as_mut_slice(), step);
        }
        Ok(used)
    }

    /// Marks those of the first lemmas that the hints of a step name.
    fn use_hints(&self, used: &mut [bool], step: &Step)
        ensures size { length used.new ≡ length used.old }
        ensures used { Rise self.now.ids.items →
            AreSetToo self.now.ids.items (λ id. uses id step.now) used.old used.new }
    {
        if let Step::Add { hints, .. } = step {
            for hint in hints.slice() {
                self.use_hint(used, *hint);
            }
        }
    }

    /// Marks that of the first lemmas that a hint names, if it names one.
    fn use_hint(&self, used: &mut [bool], hint: i64)
        ensures size { length used.new ≡ length used.old }
        ensures used { Rise self.now.ids.items →
            AreSetToo self.now.ids.items (λ id. is_hint_of id hint) used.old used.new }
    {
        if hint < 0 {
            return;
        }
        if let Some(place) = self.place_of(hint as u64, used.len()) {
            used[place] = true;
        }
    }

    /// How little a clause of the core is worth, where it may be dropped: it is one of the first
    /// lemmas, has more than two literals, and implied no literal of the trail. For its id the time
    /// is that of a binary search.
    fn cost(&self, core: &Core, used: &[bool], held: Held) -> Option<u64>
        requires { held.0 < length core.now.clauses }
        ensures no_reason { IsSome result → IsNoReason core.now.trail held }
        ensures old { IsSome result →
            IsSomeAnd (id_at core.now.clauses held)
            (Contains (take (length used.now) self.now.ids.items)) }
        ensures long { IsSome result →
            IsSomeAnd (clause_at core.now.clauses held) (λ lits. 2 < length lits) }
        ensures exact { Rise self.now.ids.items →
            result ≡ cost_of self.now used.now core.now held.0 }
    {
        let id = core.id(held);
        if core.clause(held).len() <= 2 {
            return None;
        }
        let Some(place) = self.place_of(id, used.len()) else {
            return None;
        };
        if core.is_reason(held) {
            return None;
        }
        let levels = self.levels.get(place).copied().unwrap_or(0) as u64;
        let lately = used.get(place).copied().unwrap_or(true);
        Some(if lately { levels } else { levels + UNUSED })
    }

    /// The costs of the clauses that may be dropped, the least first.
    fn costs(&self, core: &Core, used: &[bool]) -> Result<Vec<u64>, Memory>
        ensures sorted { IfOk result (λ costs. IsNonDecreasing costs.items) }
        ensures counts { Rise self.now.ids.items → IfOk result (λ costs. (least : ℕ) →
            sum_by (counts least) costs.items
            ≡ costing self.now used.now least core.now (length core.now.clauses)) }
        ensures few { IfOk result (λ costs. length costs.items ≤ count_by
            (may_be_named (take (length used.now) self.now.ids.items)) core.now.clauses) }
    {
        let mut costs = Vec::new(self.alloc);
        for place in 0..core.clauses() {
            if let Some(cost) = self.cost(core, used, Held(place)) {
                costs.push(cost)?;
            }
        }
        costs.sort_unstable();
        Ok(costs)
    }

    /// Forgets half of the clauses that may be dropped, none that costs less than the one in the
    /// middle, and gives their ids.
    fn forget_half(&self, core: &mut Core, used: &[bool]) -> Result<List<u64>, Memory>
        requires { AllPairs (λ c d. c.id ≢ d.id) core.old.clauses }
        ensures forgets { IfOk result (λ ids. Forgets core.old ids core.new) }
        ensures old { IfOk result (All (Contains (take (length used.now) self.now.ids.items))) }
        ensures fewer { IfOk result (λ ids.
            length core.new.clauses + length ids ≡ length core.old.clauses) }
        ensures half { Rise self.now.ids.items → IfOk result (λ ids.
            length ids ≡ (droppable self.now.ids.items (length used.now) core.old + 1) / 2) }
        ensures most { IfOk result (λ ids. length ids ≤
            (count_by (λ id. is_long (clause_in core.old.clauses id))
            (take (length used.now) self.now.ids.items) + 1) / 2) }
    {
        let costs = self.costs(core, used)?;
        let half = costs.len().div_ceil(2).min(u32::MAX as usize);
        let least = costs.get(costs.len() / 2).copied().unwrap_or(0);
        let mut ids = List::make(self.alloc);
        let mut place = core.clauses();
        while place > 0 && (ids.len() as usize) < half {
            place -= 1;
            self.forget(core, used, least, Held(place), &mut ids)?;
        }
        Ok(ids)
    }

    /// Forgets a clause that may be dropped and costs at least `least`.
    fn forget(
        &self,
        core: &mut Core,
        used: &[bool],
        least: u64,
        held: Held,
        ids: &mut List<u64>,
    ) -> Result<(), Memory>
        requires held { held.0 < length core.old.clauses }
        requires different { AllPairs (λ c d. c.id ≢ d.id) core.old.clauses }
        requires few { length ids.old < 2 ^ 32 - 1 }
        ensures forgets { OnOk result (ForgetsMore core.old ids.old core.new ids.new) }
        ensures different { OnOk result (AllPairs (λ c d. c.id ≢ d.id) core.new.clauses) }
        ensures old { OnOk result
            (All (Contains (take (length used.now) self.now.ids.items)) ids.old →
            All (Contains (take (length used.now) self.now.ids.items)) ids.new) }
        ensures places { OnOk result (held.0 ≤ length core.new.clauses) }
        ensures takes { Rise self.now.ids.items → OnOk result (length ids.new ≡ length ids.old +
            one_if (is_as_much least (cost_of self.now used.now core.old held.0))) }
        ensures one { OnOk result (length ids.new ≤ length ids.old + 1) }
        ensures fewer { OnOk result (length core.new.clauses + length ids.new
            ≡ length core.old.clauses + length ids.old) }
        ensures before { OnOk result ((n : ℕ) → n ≤ held.0 →
            costing self.now used.now least core.new n
            ≡ costing self.now used.now least core.old n) }
    {
        match self.cost(core, used, held) {
            Some(cost) if cost >= least => {
                ids.push(core.id(held))?;
                core.forget(held);
                Ok(())
            }
            _ => Ok(()),
        }
    }

    /// Drops lemmas, at level 0, by a step of the log: the half that costs most of those that may
    /// be dropped. Where none may be dropped, it is tried again later.
    pub fn drop_half(&mut self, core: &mut Core, log: &mut Log) -> Result<(), Memory>
        requires lemmas { AreLemmas log.old.steps self.old }
        requires due { self.old.wait ≡ 0 }
        requires short { length log.old.steps < 2 ^ 32 - 1 }
        requires different { AllPairs (λ c d. c.id ≢ d.id) core.old.clauses }
        ensures lemmas { OnOk result (AreLemmas log.new.steps self.new) }
        ensures drops { OnOk result (Drops core.old log.old.steps core.new log.new.steps) }
        ensures half { Rise self.old.ids.items → OnOk result
            (HalvesDroppable self.old core.old core.new) }
        ensures waits { OnOk result (WaitsAgain self.old self.new log.new.steps) }
        ensures err { OnErr result (log.new.steps ≡ log.old.steps) }
    {
        let steps = log.steps.slice();
        let used = self.used(&steps[(self.from as usize).min(steps.len())..], self.old())?;
        let ids = self.forget_half(core, used.as_slice())?;
        if ids.is_empty() {
            return Ok(());
        }
        log.steps.push(Step::Drop { ids })?;
        self.from = log.steps.len();
        self.dropped();
        // Out of memory, the gaps stay in the core, and nothing else is lost.
        let _ = core.compact();
        Ok(())
    }
}
