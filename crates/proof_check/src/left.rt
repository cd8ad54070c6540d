//! What of a clause is left when some literals are false.
ghost use Rattle.proof_check.specs.Marks.{is_marked};
ghost use Rattle.proof_check.specs.Propagation.{left, left_of, is_among, with_literal};
ghost use Rattle.std.specs.Prelude.{◌≡◌, [], length, OnOk, IfOk};

use crate::flags::Flags;
use arc_base::Memory;
use cnf_types::Lit;
use std::alloc::Global;
use std::collections::HashSet;

/// What is left of a clause without the literals that are false: nothing, one literal however often
/// it occurs, or different ones.
#[derive(Clone, Copy, Debug, PartialEq, Eq)]
pub(crate) enum Left {
    Nothing,
    One(Lit),
    More,
}

/// The literals that are false, by their codes: a flag for each small code, and a set of the
/// others.
#[derive(Debug, Drop)]
pub(crate) struct Marks {
    near: Flags,
    far: HashSet<u64>,
}

impl Marks {
    /// No marks, with flags for `codes` codes.
    pub fn make(alloc: Global, codes: usize) -> Result<Marks, Memory>
        ensures none { IfOk result (λ marks. (m : Lit) → is_marked marks m ≡ is_among [] m) }
        ensures flags { IfOk result (λ marks. length marks.near ≡ codes) }
    {
        Ok(Marks {
            near: Flags::make(alloc, codes)?,
            far: HashSet::new(alloc),
        })
    }

    /// Clears all marks.
    fn clear(&mut self, alloc: Global)
        ensures none { (m : Lit) → is_marked self.new m ≡ is_among [] m }
        ensures flags { length self.new.near ≡ length self.old.near }
    {
        self.near.clear();
        if !self.far.is_empty() {
            self.far = HashSet::new(alloc);
        }
    }

    /// Marks one literal more.
    pub fn mark(&mut self, lit: Lit) -> Result<(), Memory>
        ensures marked { OnOk result ((m : Lit) →
            is_marked self.new m ≡ with_literal lit (is_marked self.old) m) }
        ensures flags { length self.new.near ≡ length self.old.near }
    {
        if lit.code < self.near.len() as u64 {
            self.near.set(lit.code as usize);
        } else {
            self.far.insert(lit.code)?;
        }
        Ok(())
    }

    /// Marks just these literals.
    pub fn restart(&mut self, alloc: Global, lits: &[Lit]) -> Result<(), Memory>
        ensures marked { OnOk result ((m : Lit) → is_marked self.new m ≡ is_among lits.now m) }
        ensures flags { length self.new.near ≡ length self.old.near }
    {
        self.clear(alloc);
        for lit in lits {
            self.mark(*lit)?;
        }
        Ok(())
    }

    /// Whether a literal is marked.
    fn has(&self, lit: Lit) -> bool
        ensures { result ≡ is_marked self.now lit }
    {
        match self.near.get(lit.code as usize) {
            Some(flag) => flag,
            None => self.far.contains(&lit.code),
        }
    }

    /// What is left of a clause without the marked literals.
    pub fn left(&self, clause: &[Lit]) -> Left
        ensures { result ≡ left_of (left (is_marked self.now) clause.now) }
    {
        let mut one: Option<Lit> = None;
        for lit in clause {
            if self.has(*lit) {
                continue;
            }
            match one {
                None => one = Some(*lit),
                Some(other) => {
                    if other.code != lit.code {
                        return Left::More;
                    }
                }
            }
        }
        match one {
            None => Left::Nothing,
            Some(lit) => Left::One(lit),
        }
    }
}
