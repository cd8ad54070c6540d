//! How a clause is forgotten, and how the gaps that forgotten clauses leave are closed.
ghost use Rattle.clause_pool.specs.Pools.{IsSound as IsSoundPool, IsFreshId};
ghost use Rattle.clause_pool.specs.Pools.{clause_at as clause_in};
ghost use Rattle.clause_pool.specs.declared.place.Place.{Place};
ghost use Rattle.cnf_types.specs.Literals.{variable};
ghost use Rattle.cnf_types.specs.declared.literal.Lit.{Lit};
ghost use Rattle.sat_core.specs.Forgotten.{IsFreed, IsMoved, IsRenumbered, moved_entries};
ghost use Rattle.sat_core.specs.Placed.{AreToMove, IsPlaced};
ghost use Rattle.sat_core.specs.Progressing.{AreInRange};
ghost use Rattle.sat_core.specs.Trails.{IsOf, IsTrail, entry_of};
ghost use Rattle.sat_core.specs.Watches.{IsLinked};
ghost use Rattle.std.specs.List.{Any};
ghost use Rattle.std.specs.Option.{option_and_then};
ghost use Rattle.std.specs.Prelude.{◌≡◌, ◌≢◌, ℕ, ◌-◌, ◌^◌, ◌<◌, ◌≤◌, length, All, Some, None};
ghost use Rattle.std.specs.Prelude.{IsSomeAnd, IsTrue, IsFalse, slice_get, slice_index_or};

use crate::assigned::{Assigned, Held};
use crate::engine::Core;
use crate::store::Store;
use crate::trail::Trail;
use arc_base::{List, Memory};
use clause_pool::{Place, Pool};
use cnf_types::Lit;

impl Core {
    ghost use Rattle.sat_core.specs.Forgotten.{IsNoReason, without_clause};
    ghost use Rattle.std.specs.List.{Any};
    ghost use Rattle.std.specs.Prelude.{◌≡◌, ◌<◌, length, IsTrue, IsFalse, Some};

    /// Whether a clause implied a literal of the trail.
    pub fn is_reason(&self, held: Held) -> bool
        requires { held.0 < length self.now.clauses }
        ensures yes { IsTrue result → Any (λ e. e.reason ≡ Some held) self.now.trail }
        ensures no { IsFalse result → IsNoReason self.now.trail held }
    {
        implied(&self.trail, self.store.lits(&self.pool, held), held)
    }

    /// Takes a clause out that implied no literal of the trail. The last clause takes its place. It
    /// takes no memory.
    pub fn forget(&mut self, held: Held)
        requires held { held.0 < length self.old.clauses }
        requires no_reason { IsNoReason self.old.trail held }
        ensures { self.new ≡ without_clause self.old held }
    {
        rename(&self.store, &self.pool, &mut self.trail, held);
        take_out(&self.store, &mut self.pool, held);
        self.store.remove(held);
        let last = self.store.len();
        self.progress = self.progress.forgotten(last);
    }

    /// Closes the gaps that forgotten clauses left in memory. Out of memory, they stay.
    pub fn compact(&mut self) -> Result<(), Memory>
        ensures { self.new ≡ self.old }
    {
        let mut moved: List<(Place, Place)> = List::make(self.alloc);
        self.pool.compact(&mut moved)?;
        put_anew(&mut self.store, &self.pool, moved.slice());
        Ok(())
    }
}

/// Whether the reason of an entry is this clause.
fn is_for(entry: Option<Assigned>, held: Held) -> bool
    ensures yes { IsTrue result → option_and_then (λ e. e.reason) entry ≡ Some held }
    ensures no { IsFalse result → option_and_then (λ e. e.reason) entry ≢ Some held }
{
    let Some(entry) = entry else {
        return false;
    };
    match entry.reason {
        Some(other) => other.0 == held.0,
        None => false,
    }
}

/// Whether the reason of one of these literals' variables is this clause.
fn implied(trail: &Trail, lits: &[Lit], held: Held) -> bool
    requires { All (IsOf trail.now.vars) lits.now }
    ensures yes { IsTrue result → Any (λ e. e.reason ≡ Some held) trail.now.entries }
    ensures no { IsFalse result →
        (k : ℕ) (d : Lit) → k < length lits.now →
        option_and_then (λ e. e.reason)
        (entry_of trail.now.entries (variable (slice_index_or lits.now k d))) ≢ Some held }
{
    for lit in lits {
        if is_for(trail.entry(lit.var()), held) {
            return true;
        }
    }
    false
}

/// Gives each entry whose reason is the last clause of the list the place that this one is to take.
/// It goes through the trail only where there is such an entry.
fn rename(store: &Store, pool: &Pool, trail: &mut Trail, held: Held)
    requires linked { IsLinked pool.now.vars store.now.clauses pool.now }
    requires placed { IsPlaced store.now pool.now }
    requires some { 1 ≤ length store.now.clauses }
    requires range { AreInRange trail.old.vars store.now.clauses }
    requires trail { IsTrail store.now.clauses trail.old.vars trail.old.entries trail.old.level }
    ensures { trail.new ≡ record trail.old
        { entries = moved_entries (length store.now.clauses - 1) held.0 trail.old.entries } }
{
    let last = Held(store.len() - 1);
    if implied(trail, store.lits(pool, last), last) {
        trail.rename(last.0, held.0);
    }
}

/// Takes a clause of the list out of the pool, where it keeps it.
fn free(store: &Store, pool: &mut Pool, held: Held)
    requires held { held.0 < length store.now.clauses }
    requires sound { IsSoundPool pool.old }
    requires placed { IsPlaced store.now pool.old }
    ensures { IsFreed held.0 pool.old pool.new }
{
    match store.place(held) {
        Some(place) => pool.free(place),
        None => {}
    }
}

/// Gives the pool's clause of one place in the list the number of another place, whose clause it
/// does not keep.
fn renumber(store: &Store, pool: &mut Pool, held: Held, new: Held)
    requires held { held.0 < length store.now.clauses }
    requires sound { IsSoundPool pool.old }
    requires fresh { IsFreshId pool.old new.0 }
    requires live { (p : Place) → slice_get store.now.places held.0 ≡ Some (Some p) →
        IsSomeAnd (clause_in pool.old p) (λ e. e.id ≡ held.0) }
    requires none { slice_get store.now.places held.0 ≡ Some None → IsFreshId pool.old held.0 }
    ensures { IsRenumbered held.0 new.0 pool.old pool.new }
{
    match store.place(held) {
        Some(place) => pool.renumber(place, new.0 as u64),
        None => {}
    }
}

/// Takes the clause at a place of the list out of the pool. The last one of the list is then the
/// one at this place.
fn take_out(store: &Store, pool: &mut Pool, held: Held)
    requires held { held.0 < length store.now.clauses }
    requires sound { IsSoundPool pool.old }
    requires placed { IsPlaced store.now pool.old }
    ensures { IsMoved (length store.now.clauses - 1) held.0 pool.old pool.new }
{
    let last = Held(store.len() - 1);
    free(store, pool, held);
    if held.0 < last.0 {
        renumber(store, pool, last, held);
    }
}

/// Gives the clauses that the pool moved their new places.
fn put_anew(store: &mut Store, pool: &Pool, moved: &[(Place, Place)])
    requires few { length store.old.clauses < 2 ^ 32 }
    requires moves { AreToMove store.old pool.now moved.now }
    ensures clauses { store.new.clauses ≡ store.old.clauses }
    ensures placed { IsPlaced store.new pool.now }
{
    for (_, place) in moved {
        let at = pool.id(*place);
        store.put_at(at as u32, *place);
    }
}
