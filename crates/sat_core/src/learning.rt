//! How a lemma is added above level 0, on the level on which it becomes unit.
ghost use Rattle.sat_core.specs.States.{AreFalse};
ghost use Rattle.sat_core.specs.Trails.{IsOf};
ghost use Rattle.std.specs.Prelude.{◌≡◌, ◌↔◌, All, IsTrue};

use crate::adding::enter_watched;
use crate::assigned::Held;
use crate::engine::Core;
use crate::progress::Progress;
use crate::trail::Trail;
use arc_base::Memory;
use cnf_types::Lit;

impl Core {
    ghost use Rattle.sat_core.specs.States.{IsAsserting, with_lemma};
    ghost use Rattle.sat_core.specs.Trails.{IsOf};
    ghost use Rattle.std.specs.Prelude.{◌≡◌, ◌≢◌, ◌↔◌, ◌<◌, ◌-◌, ◌^◌, length, All, IsTrue, OnOk};
    ghost use Rattle.std.specs.Prelude.{OnErr};

    /// Whether a clause implies its first literal on the current level, and not before: this
    /// literal is unset, all others are false, and the second one is since this level, which is not
    /// the lowest.
    pub fn is_asserting(&self, lits: &[Lit]) -> bool
        requires { All (IsOf self.now.vars) lits.now }
        ensures { IsTrue result ↔ IsAsserting self.now lits.now }
    {
        let level = self.level();
        if level == 0 || lits.len() < 2 || self.trail.value(lits[0]).is_some() {
            return false;
        }
        match self.trail.entry(lits[1].var()) {
            Some(entry) => entry.level == level && others_are_false(&self.trail, lits),
            None => false,
        }
    }

    /// Adds a clause that implies its first literal on the current level, and not before, and makes
    /// this literal true.
    /// So all lower levels stay at rest. It takes all the room that later calls need for the
    /// clause.
    pub fn learn(&mut self, id: u64, lits: &[Lit]) -> Result<(), Memory>
        requires asserting { IsAsserting self.old lits.now }
        requires range { All (IsOf self.old.vars) lits.now }
        requires few_literals { length lits.now < 2 ^ 32 }
        requires few_clauses { length self.old.clauses < 2 ^ 32 - 1 }
        requires fresh { All (λ c. c.id ≢ id) self.old.clauses }
        ensures ok { OnOk result (self.new ≡ with_lemma self.old id lits.now) }
        ensures err { OnErr result (self.new ≡ self.old) }
    {
        let held = Held(self.store.len());
        enter_watched(&mut self.store, &mut self.pool, self.alloc, id, lits, 1)?;
        self.trail.assign(lits[0], held);
        self.last_id = self.last_id.max(id);
        self.progress = Progress {
            seen: held.0 + 1,
            done: self.progress.done,
            floor: self.progress.floor,
        };
        Ok(())
    }
}

/// Whether all literals but the first are false.
fn others_are_false(trail: &Trail, lits: &[Lit]) -> bool
    requires { All (IsOf trail.now.vars) lits.now }
    ensures { IsTrue result ↔ AreFalse trail.now.entries lits.now }
{
    let mut place = 1;
    while place < lits.len() {
        if !trail.is_true(lits[place].negated()) {
            return false;
        }
        place += 1;
    }
    true
}
