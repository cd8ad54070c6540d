//! Decisions, each followed by propagation, until a clause is falsified or all variables are set.
ghost use Rattle.cnf_types.specs.Literals.{literal};
ghost use Rattle.sat_core.specs.Rest.{IsAtRest};
ghost use Rattle.sat_core.specs.States.{IsSound};
ghost use Rattle.sat_core.specs.Trails.{is_on, clause_at, IsFalsified, IsOf};
ghost use Rattle.sat_search.specs.Orders.{IsOrder, IsMostActive, HoldsUnset, is_set};
ghost use Rattle.sat_search.specs.Orders.{KeepsClauses, KeepsTrue};
ghost use Rattle.std.specs.Prelude.{◌≡◌, ◌≤◌, ◌<◌, ℕ, IsTrue, IsNone, IfSome, IsSomeAnd};
ghost use Rattle.std.specs.Prelude.{IsFalse, false, slice_index_or, All};

use crate::order::Order;
use cnf_types::Lit;
use sat_core::{Core, Held};

impl Order {
    /// Propagates and decides until a clause is falsified, which is then the answer, or all
    /// variables are set. Of the literals handed in the first one that is not true is false from
    /// level 1 on.
    pub fn dive(&mut self, core: &mut Core, first: &[Lit]) -> Option<Held>
        requires first { All (IsOf core.old.vars) first.now }
        requires order { IsOrder core.old.vars self.old }
        requires waiting { HoldsUnset core.old.vars core.old.trail self.old }
        ensures order { IsOrder core.old.vars self.new }
        ensures rates { self.new ≡ record self.old { heap = self.new.heap } }
        ensures waiting { HoldsUnset core.new.vars core.new.trail self.new }
        ensures sound { IsSound core.new }
        ensures kept { KeepsClauses core.old core.new }
        ensures conflict { IfSome result (λ held.
            IsSomeAnd (clause_at core.new.clauses held) (IsFalsified core.new.trail)) }
        ensures rest { IsNone result → IsAtRest core.new.clauses (is_on core.new.trail) }
        ensures all_set { IsNone result →
            (var : ℕ) → 1 ≤ var → var ≤ core.new.vars → IsTrue (is_set core.new.trail var) }
    {
        if let Some(held) = begin(core, first) {
            return Some(held);
        }
        self.walk(core)
    }

    /// Sets the variables that are unset, the most active first.
    fn walk(&mut self, core: &mut Core) -> Option<Held>
        requires order { IsOrder core.old.vars self.old }
        requires waiting { HoldsUnset core.old.vars core.old.trail self.old }
        requires sound { IsSound core.old }
        requires rest { IsAtRest core.old.clauses (is_on core.old.trail) }
        ensures order { IsOrder core.old.vars self.new }
        ensures rates { self.new ≡ record self.old { heap = self.new.heap } }
        ensures waiting { HoldsUnset core.new.vars core.new.trail self.new }
        ensures sound { IsSound core.new }
        ensures kept { KeepsClauses core.old core.new }
        ensures conflict { IfSome result (λ held.
            IsSomeAnd (clause_at core.new.clauses held) (IsFalsified core.new.trail)) }
        ensures rest { IsNone result → IsAtRest core.new.clauses (is_on core.new.trail) }
        ensures all_set { IsNone result →
            (var : ℕ) → 1 ≤ var → var ≤ core.new.vars → IsTrue (is_set core.new.trail var) }
    {
        while let Some(var) = self.heap.take_first(self.activity.as_slice()) {
            if let Some(held) = self.assume(core, var) {
                return Some(held);
            }
        }
        None
    }

    /// Decides a variable, where it is unset, as the value that it had last, and propagates. None
    /// of the heap is more active.
    fn assume(&self, core: &mut Core, var: u64) -> Option<Held>
        requires order { IsOrder core.old.vars self.now }
        requires least { 1 ≤ var }
        requires most { var ≤ core.old.vars }
        requires active { IsMostActive self.now var }
        requires sound { IsSound core.old }
        requires rest { IsAtRest core.old.clauses (is_on core.old.trail) }
        ensures sound { IsSound core.new }
        ensures kept { KeepsClauses core.old core.new }
        ensures stays { KeepsTrue core.old.trail core.new.trail }
        ensures conflict { IfSome result (λ held.
            IsSomeAnd (clause_at core.new.clauses held) (IsFalsified core.new.trail)) }
        ensures rest { IsNone result → IsAtRest core.new.clauses (is_on core.new.trail) }
        ensures set { IsTrue (is_set core.new.trail var) }
        ensures saved { IsFalse (is_set core.old.trail var) → IsTrue (is_on core.new.trail
            (literal var (slice_index_or self.now.saved.items var false))) }
    {
        let lit = Lit::make(var, self.saved[var as usize]);
        if core.value(lit).is_some() {
            return None;
        }
        core.decide(lit);
        core.propagate()
    }
}

/// The first of these literals that is not true, where it is unset.
fn pick(core: &Core, first: &[Lit]) -> Option<Lit>
    requires sound { IsSound core.now }
    requires range { All (IsOf core.now.vars) first.now }
    ensures range { IfSome result (IsOf core.now.vars) }
{
    for lit in first {
        match core.value(*lit) {
            Some(false) => return None,
            Some(true) => {}
            None => return Some(*lit),
        }
    }
    None
}

/// Propagates, then makes the first of these literals false that is not true, and propagates again.
fn begin(core: &mut Core, first: &[Lit]) -> Option<Held>
    requires first { All (IsOf core.old.vars) first.now }
    ensures sound { IsSound core.new }
    ensures kept { KeepsClauses core.old core.new }
    ensures stays { KeepsTrue core.old.trail core.new.trail }
    ensures conflict { IfSome result (λ held.
        IsSomeAnd (clause_at core.new.clauses held) (IsFalsified core.new.trail)) }
    ensures rest { IsNone result → IsAtRest core.new.clauses (is_on core.new.trail) }
{
    if let Some(held) = core.propagate() {
        return Some(held);
    }
    let negation = pick(core, first)?.negated();
    if core.value(negation).is_some() {
        return None;
    }
    core.decide(negation);
    core.propagate()
}
