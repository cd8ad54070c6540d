//! The heap, and what is done with it.
ghost use Rattle.std.specs.Prelude.{◌≡◌, ◌<◌, ◌≤◌, ◌^◌, ◌+◌, ◌↔◌, ◌⊎◌, ℕ, List, Contains, length};
ghost use Rattle.std.specs.Prelude.{IfOk, MatchOption};
ghost use Rattle.variable_heap.specs.Heaps.{IsOrdered, AreIdle, IsTaken, IsEmpty, IsRaised};
ghost use Rattle.variable_heap.specs.Heaps.{HaveSame};

use crate::shifting::{rise, sink};
use arc_base::Memory;
use std::alloc::Global;
use std::marker::Model;

/// Variables, none twice, with one of the most active ones at the top. The activities lie with the
/// caller, one for each variable.
#[derive(Debug, Drop)]
pub struct VariableHeap {
    /// The variables: above the places 2 p + 1 and 2 p + 2 is the place p.
    vars: Vec<u32>,
    /// For each variable one more than its place, or 0 where it is not in the heap.
    places: Vec<u32>,
}

impl Model for VariableHeap {
    ghost use Rattle.variable_heap.specs.Heaps.{Heap};

    ghost Value = { Heap };

    ghost use Rattle.variable_heap.specs.Kept.{heap, IsKept};

    ghost view = { heap };

    ghost invariant = { IsKept };
}

impl VariableHeap {
    /// A heap of all variables from 1 to `vars`, the first at the top. It takes the memory for all
    /// that is done with it.
    pub fn make(alloc: Global, vars: u64) -> Result<VariableHeap, Memory>
        requires { vars < 2 ^ 25 }
        ensures limit { IfOk result (λ heap. heap.limit ≡ vars + 1) }
        ensures all { IfOk result (λ heap.
            (v : ℕ) → Contains heap.vars v ↔ ((1 ≤ v) × (v ≤ vars))) }
        ensures order { IfOk result (λ heap.
            (activity : List ℕ) → AreIdle activity → IsOrdered activity heap.vars) }
    {
        let mut heap = Vec::with_capacity(alloc, vars as usize + 1)?;
        let mut places = Vec::with_capacity(alloc, vars as usize + 1)?;
        places.push(0)?;
        for var in 1..vars as u32 + 1 {
            heap.push(var)?;
            places.push(var)?;
        }
        Ok(VariableHeap { vars: heap, places })
    }

    /// Takes out one of the most active variables, in time logarithmic in the number of variables.
    pub fn take_first(&mut self, activity: &[u64]) -> Option<u64>
        requires known { self.old.limit ≤ length activity.now }
        requires order { IsOrdered activity.now self.old.vars }
        ensures limit { self.new.limit ≡ self.old.limit }
        ensures taken { MatchOption result (IsEmpty self.old self.new)
            (IsTaken activity.now self.old self.new) }
        ensures order { IsOrdered activity.now self.new.vars }
    {
        let last = self.vars.pop()?;
        if self.vars.is_empty() {
            self.places[last as usize] = 0;
            return Some(last as u64);
        }
        let first = self.vars[0];
        self.places[first as usize] = 0;
        sink(&mut self.vars, &mut self.places, last, activity);
        Some(first as u64)
    }

    /// Adds a variable, unless it is there, in time at most logarithmic in the number of variables.
    pub fn put(&mut self, var: u64, activity: &[u64])
        requires least { 1 ≤ var }
        requires below { var < self.old.limit }
        requires known { self.old.limit ≤ length activity.now }
        requires order { IsOrdered activity.now self.old.vars }
        ensures limit { self.new.limit ≡ self.old.limit }
        ensures put { (w : ℕ) → Contains self.new.vars w ↔ (Contains self.old.vars w ⊎ (w ≡ var)) }
        ensures order { IsOrdered activity.now self.new.vars }
    {
        if self.places[var as usize] > 0 {
            return;
        }
        let place = self.vars.len();
        let _ = self.vars.push(var as u32);
        rise(
            &mut self.vars,
            &mut self.places,
            place,
            var as u32,
            activity,
        );
    }

    /// Restores the heap's order after a variable became more active, in time at most logarithmic
    /// in the number of variables.
    pub fn raise(&mut self, var: u64, activity: &[u64])
        requires below { var < self.old.limit }
        requires known { self.old.limit ≤ length activity.now }
        ensures limit { self.new.limit ≡ self.old.limit }
        ensures same { HaveSame self.old.vars self.new.vars }
        ensures order { (before : List ℕ) → IsRaised before activity.now var →
            IsOrdered before self.old.vars → IsOrdered activity.now self.new.vars }
    {
        let next = self.places[var as usize];
        if next > 0 {
            let place = next as usize - 1;
            rise(
                &mut self.vars,
                &mut self.places,
                place,
                var as u32,
                activity,
            );
        }
    }
}
