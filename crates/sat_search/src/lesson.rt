//! Conflict analysis: the lemma of a conflict, or learnt clause. Reasons are resolved away from the
//! end of the trail on, up to the first unique implication point; then literals that the others
//! imply are left out. The cost is that of the clauses that are resolved.
ghost use Rattle.cnf_types.specs.Literals.{negated};
ghost use Rattle.cnf_types.specs.declared.literal.Lit.{Lit};
ghost use Rattle.sat_core.specs.States.{IsSound};
ghost use Rattle.sat_core.specs.Trails.{is_on, clause_at, IsOf, IsFalsified};
ghost use Rattle.sat_search.specs.Live.{clause_in};
ghost use Rattle.sat_search.specs.Passes.{open_in, is_marked, resolving_reason, IsCleared};
ghost use Rattle.sat_search.specs.Passes.{IsJoined, IsPass, HasRoom, hint_at};
ghost use Rattle.sat_search.specs.Searches.{IsLearnt};
ghost use Rattle.std.specs.Prelude.{◌≡◌, ◌+◌, ◌*◌, ◌<◌, ◌≤◌, ◌^◌, ◌||◌, ◌==◌, if◌then◌else◌, ◌∷◌};
ghost use Rattle.std.specs.Prelude.{◌++◌, [], length, reverse, All, IsSomeAnd, IfOk, IfSome, OnOk};
ghost use Rattle.std.specs.Prelude.{Some, option_to_list, false};

use crate::marks::Marks;
use crate::sparing::Spares;
use arc_base::{List, Memory};
use cnf_types::Lit;
use sat_core::{Assigned, Core, Held};
use std::alloc::Global;

/// The state of conflict analysis while it goes back through the trail: the literals that stay, the
/// ids of the clauses that were resolved, the conflict's first, how many marked literals are of the
/// current level, and the literals that were met, but for those of level 0.
#[derive(Debug, Drop)]
pub(crate) struct Lesson {
    pub lits: Vec<Lit>,
    pub hints: Vec<i64>,
    pub met: Vec<Lit>,
    pub current: usize,
}

/// Whether a literal is false.
fn is_false(core: &Core, lit: Lit) -> bool
    requires sound { IsSound core.now }
    requires range { IsOf core.now.vars lit }
    ensures { result ≡ is_on core.now.trail (negated lit) }
{
    match core.value(lit) {
        Some(value) => !value,
        None => false,
    }
}

/// The level on which a literal became false, and 0 where it is not false.
pub(crate) fn level_of_false(core: &Core, lit: Lit) -> u32
    requires sound { IsSound core.now }
    requires range { IsOf core.now.vars lit }
{
    if is_false(core, lit) {
        core.level_of(lit.var())
    } else {
        0
    }
}

/// Whether the literal of an entry between level 0 and the current one is implied by the clause so
/// far.
fn is_spared(spares: &mut Spares, marks: &Marks, core: &Core, entry: Assigned) -> bool
    requires sound { IsSound core.now }
    requires room { HasRoom core.now marks.now }
{
    entry.level > 0 && entry.level < core.level() && spares.ask(marks, core, entry.lit.var())
}

/// The hint that names a clause.
fn hint(core: &Core, held: Held) -> i64
    requires held { held.0 < length core.now.clauses }
    requires sound { IsSound core.now }
    requires ids { core.now.last_id < 2 ^ 63 }
    ensures { hint_at core.now.clauses held ≡ Some result }
{
    core.id(held) as i64
}

impl Lesson {
    /// The reason with which an entry is resolved away, where it is: on the current level as long
    /// as other literals of this level are marked, or where it is level 0, and below it where its
    /// literal can be spared.
    fn resolving_reason(&self, entry: Assigned, level: u32, spared: bool) -> Option<Held>
        ensures { result ≡ resolving_reason level self.now.current spared entry }
    {
        let goes = if entry.level == level {
            level == 0 || self.current > 1
        } else {
            spared
        };
        if goes { entry.reason } else { None }
    }

    /// Marks a literal, where it is false.
    fn meet(
        &mut self,
        marks: &mut Marks,
        spares: &mut Spares,
        core: &Core,
        lit: Lit,
    ) -> Result<(), Memory>
        requires sound { IsSound core.now }
        requires room { HasRoom core.now marks.old }
        requires range { IsOf core.now.vars lit }
        requires counted { self.old.current ≡ open_in core.now.level core.now.trail marks.old }
        requires met { All (IsOf core.now.vars) self.old.met.items }
        ensures joined { OnOk result (IsJoined core.now.trail marks.old marks.new (lit ∷ [])) }
        ensures counted { OnOk result
            (self.new.current ≡ open_in core.now.level core.now.trail marks.new) }
        ensures met { OnOk result (All (IsOf core.now.vars) self.new.met.items) }
        ensures size { length marks.new ≡ length marks.old }
        ensures lits { self.new.lits.items ≡ self.old.lits.items }
        ensures hints { self.new.hints.items ≡ self.old.hints.items }
    {
        if marks.has(lit) || !is_false(core, lit) {
            return Ok(());
        }
        marks.mark(lit);
        let level = core.level_of(lit.var());
        spares.meet_level(level);
        if level == core.level() {
            self.current += 1;
        }
        if level > 0 {
            self.met.push(lit)?;
        }
        Ok(())
    }

    /// Marks the literals of a clause that are false, and takes its id as a hint.
    fn join(
        &mut self,
        marks: &mut Marks,
        spares: &mut Spares,
        core: &Core,
        held: Held,
    ) -> Result<(), Memory>
        requires held { held.0 < length core.now.clauses }
        requires sound { IsSound core.now }
        requires room { HasRoom core.now marks.old }
        requires ids { core.now.last_id < 2 ^ 63 }
        requires counted { self.old.current ≡ open_in core.now.level core.now.trail marks.old }
        requires met { All (IsOf core.now.vars) self.old.met.items }
        ensures joined { OnOk result (IfSome (clause_at core.now.clauses held)
            (IsJoined core.now.trail marks.old marks.new)) }
        ensures hint { OnOk result (self.new.hints.items ≡ self.old.hints.items ++
            option_to_list (hint_at core.now.clauses held)) }
        ensures counted { OnOk result
            (self.new.current ≡ open_in core.now.level core.now.trail marks.new) }
        ensures met { OnOk result (All (IsOf core.now.vars) self.new.met.items) }
        ensures size { length marks.new ≡ length marks.old }
        ensures lits { self.new.lits.items ≡ self.old.lits.items }
    {
        self.hints.push(hint(core, held))?;
        let lits = core.clause(held);
        for lit in lits {
            self.meet(marks, spares, core, *lit)?;
        }
        Ok(())
    }

    /// Unmarks the negation of an entry's literal.
    fn leave(&mut self, marks: &mut Marks, level: u32, entry: Assigned)
        requires code { (negated entry.lit).code < length marks.old }
        requires some { entry.level ≡ level → 1 ≤ self.old.current }
        ensures cleared { IsCleared marks.old marks.new (negated entry.lit) }
        ensures size { length marks.new ≡ length marks.old }
        ensures less { self.old.current
            ≡ self.new.current + (if entry.level == level then 1 else 0) }
        ensures lits { self.new.lits.items ≡ self.old.lits.items }
        ensures hints { self.new.hints.items ≡ self.old.hints.items }
        ensures met { self.new.met.items ≡ self.old.met.items }
    {
        marks.clear(entry.lit.negated());
        if entry.level == level {
            self.current -= 1;
        }
    }

    /// Goes through the entry of the trail at a place. Where its negation is in the clause so far,
    /// the entry is resolved away with its reason, or the negation stays.
    fn visit(
        &mut self,
        marks: &mut Marks,
        spares: &mut Spares,
        core: &Core,
        place: usize,
    ) -> Result<(), Memory>
        requires place { place < length core.now.trail }
        requires sound { IsSound core.now }
        requires room { HasRoom core.now marks.old }
        requires ids { core.now.last_id < 2 ^ 63 }
        requires met { All (IsOf core.now.vars) self.old.met.items }
        requires pass { IsPass core.now (place + 1) marks.old self.old.lits.items
            (reverse self.old.hints.items) self.old.current }
        ensures pass { OnOk result (IsPass core.now place marks.new self.new.lits.items
            (reverse self.new.hints.items) self.new.current) }
        ensures met { OnOk result (All (IsOf core.now.vars) self.new.met.items) }
        ensures size { length marks.new ≡ length marks.old }
    {
        let entry = core.entries()[place];
        let negation = entry.lit.negated();
        if !marks.has(negation) {
            return Ok(());
        }
        let spared = is_spared(spares, marks, core, entry);
        let reason = self.resolving_reason(entry, core.level(), spared);
        self.leave(marks, core.level(), entry);
        match reason {
            Some(held) => self.join(marks, spares, core, held),
            None => {
                self.lits.push(negation)?;
                Ok(())
            }
        }
    }

    /// The result of conflict analysis. The literals are those that the pass through the trail
    /// leaves, with one alone of the current level; the hints are in the order of the trail, and
    /// the conflict's clause is the last one.
    pub fn of(
        alloc: Global,
        marks: &mut Marks,
        spares: &mut Spares,
        core: &Core,
        conflict: Held,
    ) -> Result<Lesson, Memory>
        requires conflict { IsSomeAnd (clause_at core.now.clauses conflict)
            (IsFalsified core.now.trail) }
        requires size { length marks.old ≡ 2 * core.now.vars + 2 }
        requires none { (l : Lit) → is_marked marks.old l ≡ false }
        requires ids { core.now.last_id < 2 ^ 63 }
        ensures sound { IsSound core.now }
        ensures learnt { IfOk result (λ lesson. IsLearnt (clause_in core.now.clauses) core.now.vars
            lesson.lits.items lesson.hints.items) }
        ensures met { IfOk result (λ lesson. All (IsOf core.now.vars) lesson.met.items) }
        ensures none { OnOk result ((l : Lit) → is_marked marks.new l ≡ false) }
        ensures size { length marks.new ≡ length marks.old }
    {
        let entries = core.entries().len();
        let mut lesson = Lesson {
            lits: Vec::new(alloc),
            hints: Vec::new(alloc),
            met: Vec::new(alloc),
            current: 0,
        };
        spares.begin();
        lesson.join(marks, spares, core, conflict)?;
        for place in (0..entries).rev() {
            lesson.visit(marks, spares, core, place)?;
        }
        lesson.hints.reverse();
        Ok(lesson)
    }

    /// The literals and the hints.
    pub fn into_parts(self) -> Result<(List<Lit>, List<i64>), Memory>
        ensures { IfOk result (λ parts.
            (parts.0 ≡ self.lits.items) × (parts.1 ≡ self.hints.items)) }
    {
        let Lesson {
            lits,
            hints,
            met,
            current: _,
        } = self;
        drop(met);
        Ok((List::of(lits)?, List::of(hints)?))
    }
}
