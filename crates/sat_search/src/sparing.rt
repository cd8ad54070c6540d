//! Which literals a lemma can leave out, since its others imply them: those whose reasons lead, by
//! reasons of their own, to literals of the lemma and to such as are false since level 0. Nothing
//! but speed depends on it, so its contracts say nothing of the answer, and each look-up allows for
//! a variable that is not there.
ghost use Rattle.sat_core.specs.States.{IsSound};
ghost use Rattle.sat_search.specs.Passes.{HasRoom};
ghost use Rattle.std.specs.Prelude.{◌<◌, ◌^◌};

use crate::lesson::level_of_false;
use crate::marks::Marks;
use arc_base::Memory;
use sat_core::Core;
use std::alloc::Global;

/// What is known of the variables at one conflict.
#[derive(Debug, Drop)]
pub(crate) struct Spares {
    /// For each variable the number of the last conflict at which its literal was implied.
    implied: Vec<u64>,
    /// For each variable the number of the last conflict at which it was found not to be: it is not
    /// asked again there.
    failed: Vec<u64>,
    /// For each variable that is taken for implied the one for whose reason it is.
    parents: Vec<u64>,
    /// The variables that are taken for implied while one question is open, and those of them whose
    /// reasons are still to be looked at.
    supposed: Vec<u64>,
    waiting: Vec<u64>,
    /// For each level the number of the last conflict whose lemma met a literal of it.
    levels: Vec<u64>,
    conflict: u64,
}

impl Spares {
    /// Nothing is known.
    pub fn make(alloc: Global, vars: u64) -> Result<Spares, Memory>
        requires { vars < 2 ^ 25 }
    {
        Ok(Spares {
            implied: vec![in alloc; 0; vars as usize + 1]?,
            failed: vec![in alloc; 0; vars as usize + 1]?,
            parents: vec![in alloc; 0; vars as usize + 1]?,
            supposed: Vec::new(alloc),
            waiting: Vec::new(alloc),
            levels: vec![in alloc; 0; vars as usize + 1]?,
            conflict: 0,
        })
    }

    /// Begins with another conflict, of which nothing is known.
    pub fn begin(&mut self) {
        self.conflict = self.conflict.saturating_add(1);
    }

    /// Notes that the lemma met a literal of a level.
    pub fn meet_level(&mut self, level: u32) {
        if (level as usize) < self.levels.len() {
            self.levels[level as usize] = self.conflict;
        }
    }

    /// Whether the lemma met a literal of a level. Of another level it implies none, since the
    /// reasons of such a literal lead back to the decision of its level.
    fn has_level(&self, level: u32) -> bool {
        self.levels.get(level as usize).copied().unwrap_or(0) == self.conflict
    }

    fn is_implied(&self, var: u64) -> bool {
        self.implied.get(var as usize).copied().unwrap_or(0) == self.conflict
    }

    fn is_failed(&self, var: u64) -> bool {
        self.failed.get(var as usize).copied().unwrap_or(0) == self.conflict
    }

    fn set(&mut self, var: u64, conflict: u64) {
        if (var as usize) < self.implied.len() {
            self.implied[var as usize] = conflict;
        }
    }

    /// Takes a variable for one that is not implied, and gives the variable for whose reason it was
    /// asked.
    fn fail(&mut self, var: u64) -> u64 {
        if (var as usize) < self.failed.len() {
            self.failed[var as usize] = self.conflict;
        }
        self.parents.get(var as usize).copied().unwrap_or(0)
    }

    /// Whether a variable is known to be implied, or is taken for it from now on, for the reason of
    /// another one.
    fn accept(&mut self, var: u64, parent: u64) -> bool {
        self.is_implied(var) || (!self.is_failed(var) && self.suppose(var, parent))
    }

    /// Assumes that a variable is implied, if there is memory for it.
    fn suppose(&mut self, var: u64, parent: u64) -> bool {
        if self.supposed.push(var).is_err() || self.waiting.push(var).is_err() {
            return false;
        }
        self.set(var, self.conflict);
        if (var as usize) < self.parents.len() {
            self.parents[var as usize] = parent;
        }
        true
    }

    /// Whether a variable has a reason whose other literals are in the lemma, false since level 0,
    /// or taken for implied from now on.
    fn look(&mut self, marks: &Marks, core: &Core, var: u64) -> bool
        requires sound { IsSound core.now }
        requires room { HasRoom core.now marks.now }
    {
        if var > core.vars() {
            return false;
        }
        let Some(held) = core.reason(var) else {
            return false;
        };
        if held.0 >= core.clauses() {
            return false;
        }
        for lit in core.clause(held) {
            let other = lit.var();
            if other == var || marks.has(*lit) {
                continue;
            }
            let level = level_of_false(core, *lit);
            if level > 0 && !(self.has_level(level) && self.accept(other, var)) {
                return false;
            }
        }
        true
    }

    /// Whether a variable's literal is implied.
    pub fn ask(&mut self, marks: &Marks, core: &Core, var: u64) -> bool
        requires sound { IsSound core.now }
        requires room { HasRoom core.now marks.now }
    {
        if self.is_implied(var) {
            return true;
        }
        if self.is_failed(var) {
            return false;
        }
        self.supposed.clear();
        self.waiting.clear();
        let mut holds = self.suppose(var, 0);
        for _ in 0..core.entries().len() {
            let Some(next) = self.waiting.pop() else {
                break;
            };
            if !self.look(marks, core, next) {
                self.fail_from(next);
                holds = false;
                break;
            }
        }
        if !holds {
            self.take_back();
        }
        holds
    }

    /// Notes that a variable is not implied, nor are those for whose reasons it was asked, one
    /// after another.
    fn fail_from(&mut self, var: u64) {
        let mut next = var;
        for _ in 0..self.supposed.len() {
            if next == 0 {
                return;
            }
            next = self.fail(next);
        }
    }

    /// Forgets that variables were taken for implied. That some are not is kept.
    fn take_back(&mut self) {
        for _ in 0..self.supposed.len() {
            let Some(var) = self.supposed.pop() else {
                return;
            };
            self.set(var, 0);
        }
    }
}
