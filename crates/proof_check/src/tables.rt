//! Clauses in the rows of a table, whose literals are one after another in one vector.
ghost use Rattle.proof_check.specs.Places.{nowhere, size, clause_at, IsPlace, IsRising};
ghost use Rattle.proof_check.specs.Rows.{row_size};
ghost use Rattle.std.specs.Prelude.{◌≡◌, ◌≤◌, ◌<◌, ◌+◌, ◌-◌, ◌++◌, [], ◌∷◌, All, length, map, max};
ghost use Rattle.std.specs.Prelude.{option_map, slice_get, slice_set, sum_by, Some, None};
ghost use Rattle.std.specs.Prelude.{OnOk, OnErr};

use arc_base::Memory;
use cnf_types::Lit;
use std::alloc::Global;
use std::marker::Model;

/// Where a clause is among literals: from `start` on, up to one before `stop`. If `stop` is 0 there
/// is no clause.
#[derive(Clone, Copy, Debug)]
pub(crate) struct Place {
    pub start: usize,
    pub stop: usize,
}

/// The place of no clause.
fn nowhere() -> Place
    ensures { result ≡ nowhere }
{
    Place { start: 0, stop: 0 }
}

/// How many literals are at a place.
fn size(place: Place) -> usize
    requires { place.start ≤ place.stop - 1 }
    ensures { result ≡ size place }
{
    if place.stop == 0 {
        return 0;
    }
    place.stop - 1 - place.start
}

/// Moves a clause to the front, to where those before it end, and gives its place there. No clause
/// that ends there or begins behind it changes.
fn move_clause(lits: &mut [Lit], place: Place, end: usize) -> Place
    requires place { IsPlace (length lits.old) place }
    requires end { 0 < place.stop → end ≤ place.start }
    requires room { end ≤ length lits.old }
    ensures clause { clause_at lits.new result ≡ clause_at lits.old place }
    ensures within { IsPlace (end + size place) result }
    ensures start { 0 < result.stop → end ≤ result.start }
    ensures size { size result ≡ size place }
    ensures len { length lits.new ≡ length lits.old }
    ensures front { (p : Place) → IsPlace end p → clause_at lits.new p ≡ clause_at lits.old p }
    ensures back { (p : Place) → (0 < p.stop → place.stop - 1 ≤ p.start) →
        clause_at lits.new p ≡ clause_at lits.old p }
{
    if place.stop == 0 {
        return place;
    }
    lits.copy_within(place.start..place.stop - 1, end);
    Place {
        start: end,
        stop: end + (place.stop - place.start),
    }
}

/// Moves the clauses together at the front, each behind the one before it, and gives where the last
/// one ends.
fn slide(lits: &mut [Lit], places: &mut [Place]) -> usize
    requires within { All (IsPlace (length lits.old)) places.old }
    requires rising { IsRising 0 places.old }
    ensures clauses { map (clause_at lits.new) places.new ≡ map (clause_at lits.old) places.old }
    ensures within { All (IsPlace result) places.new }
    ensures rising { IsRising 0 places.new }
    ensures room { result ≡ sum_by size places.new }
    ensures end { result ≤ length lits.new }
    ensures len { length places.new ≡ length places.old }
{
    let mut end = 0;
    for row in 0..places.len() {
        let place = places[row];
        places[row] = move_clause(lits, place, end);
        end += size(place);
    }
    end
}

/// Takes out the literals that belong to no clause, in time linear in the literals and the places.
/// Each place has the clause that it had. This takes no memory.
fn compact(lits: &mut Vec<Lit>, places: &mut Vec<Place>)
    requires within { All (IsPlace (length lits.old.items)) places.old.items }
    requires rising { IsRising 0 places.old.items }
    ensures clauses { map (clause_at lits.new.items) places.new.items
        ≡ map (clause_at lits.old.items) places.old.items }
    ensures within { All (IsPlace (length lits.new.items)) places.new.items }
    ensures rising { IsRising 0 places.new.items }
    ensures room { length lits.new.items ≡ sum_by size places.new.items }
    ensures len { length places.new.items ≡ length places.old.items }
{
    let end = slide(lits, places);
    lits.truncate(end);
}

/// A table whose rows have a clause each or none. Contracts see the list of the rows.
#[derive(Drop)]
pub(crate) struct Table {
    lits: Vec<Lit>,
    places: Vec<Place>,
    // How many of the literals belong to no clause.
    dropped: usize,
}

impl Model for Table {
    ghost use Rattle.cnf_types.specs.declared.literal.Lit.{Lit};
    ghost use Rattle.std.specs.Prelude.{List, Option, map};

    ghost Value = { List (Option (List Lit)) };

    ghost use Rattle.proof_check.specs.Places.{clause_at, IsTidy};

    ghost view = { λ t. map (clause_at t.lits.items) t.places.items };

    ghost invariant = { λ t. IsTidy t.lits.items t.places.items t.dropped };
}

impl Table {
    /// No rows.
    pub fn make(alloc: Global) -> Table
        ensures { result ≡ [] }
    {
        Table {
            lits: Vec::new(alloc),
            places: Vec::new(alloc),
            dropped: 0,
        }
    }

    /// How many rows there are.
    pub fn len(&self) -> usize
        ensures { result ≡ length self.now }
    {
        self.places.len()
    }

    /// How many literals the clauses of the rows have.
    pub fn literal_count(&self) -> usize
        ensures { result ≡ sum_by row_size self.now }
    {
        self.lits.len() - self.dropped
    }

    /// The row of this number, if there is one: its clause, if it has one.
    #[inline]
    pub fn get(&self, row: usize) -> Option<Option<&[Lit]>>
        ensures { option_map (λ clause. option_map (λ lits. lits.now) clause) result
            ≡ slice_get self.now row }
    {
        let place = *self.places.get(row)?;
        if place.stop == 0 {
            return Some(None);
        }
        Some(Some(&self.lits[place.start..place.stop - 1]))
    }

    /// Adds a row without a clause.
    pub fn push_none(&mut self) -> Result<(), Memory>
        ensures ok { OnOk result (self.new ≡ self.old ++ None ∷ []) }
        ensures err { OnErr result (self.new ≡ self.old) }
    {
        self.places.push(nowhere())?;
        Ok(())
    }

    /// Adds a row with this clause.
    pub fn push(&mut self, clause: &[Lit]) -> Result<(), Memory>
        ensures ok { OnOk result (self.new ≡ self.old ++ Some clause.now ∷ []) }
        ensures err { OnErr result (self.new ≡ self.old) }
    {
        let start = self.lits.len();
        self.lits.extend_from_slice(clause)?;
        let place = Place {
            start,
            stop: self.lits.len() + 1,
        };
        match self.places.push(place) {
            Ok(()) => Ok(()),
            Err(_) => {
                self.lits.truncate(start);
                Err(Memory)
            }
        }
    }

    /// Takes the clause of a row away. Once the literals of such clauses are more than half of all
    /// and more than the rows, the others move together, so that over all this takes time linear in
    /// the literals that were added and in the rows.
    pub fn remove(&mut self, row: usize)
        requires { row < length self.old }
        ensures { self.new ≡ slice_set self.old row None }
    {
        self.dropped += size(self.places[row]);
        self.places[row] = nowhere();
        let most = (self.lits.len() / 2).max(self.places.len());
        if self.dropped > most {
            compact(&mut self.lits, &mut self.places);
            self.dropped = 0;
        }
    }
}
