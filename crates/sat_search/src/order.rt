//! In which order variables are decided, and how: those that conflicts met most come first, late
//! conflicts counting more (their activity), each with the value that it had last (phase saving).
//! That an answer is right does not rest on it, only how soon there is one.
ghost use Rattle.sat_core.specs.States.{at_level};
ghost use Rattle.sat_core.specs.Trails.{IsOf};
ghost use Rattle.sat_search.specs.Orders.{IsOrder, IsScaled, scaled, step_after, met_once, met_all};
ghost use Rattle.sat_search.specs.Orders.{AreActive, IsFresh, IsReleased, HoldsUnset, above};
ghost use Rattle.std.specs.Prelude.{◌≡◌, ◌<◌, ◌≤◌, ◌^◌, All, IfOk};
ghost use Rattle.variable_heap.specs.Heaps.{HaveSame};

use arc_base::Memory;
use cnf_types::Lit;
use sat_core::Core;
use std::alloc::Global;
use variable_heap::VariableHeap;

/// What the first conflict adds to an activity.
const FIRST_STEP: u64 = 1 << 10;

/// Above this step all activities are made smaller.
const GREATEST_STEP: u64 = 1 << 50;

/// By how much they are.
const SCALE: u64 = 1 << 40;

/// How active variables were in conflicts, which are to be decided first, and their last values.
#[derive(Debug, Drop)]
pub(crate) struct Order {
    /// The variables that may be unset.
    pub heap: VariableHeap,
    /// The activity of each variable, and 0 where no conflict met it.
    pub activity: Vec<u64>,
    /// What the next conflict adds to the activity of the variables that it meets.
    pub step: u64,
    pub saved: Vec<bool>,
}

impl Order {
    /// No conflict was met yet.
    pub fn make(alloc: Global, vars: u64) -> Result<Order, Memory>
        requires { vars < 2 ^ 25 }
        ensures order { IfOk result (IsOrder vars) }
        ensures fresh { IfOk result (IsFresh vars) }
    {
        Ok(Order {
            heap: VariableHeap::make(alloc, vars)?,
            activity: vec![in alloc; 0; vars as usize + 1]?,
            step: FIRST_STEP,
            saved: vec![in alloc; false; vars as usize + 1]?,
        })
    }

    /// Raises the activity of the variables that a conflict met.
    pub fn remember(&mut self, vars: u64, met: &[Lit])
        requires order { IsOrder vars self.old }
        requires met { All (IsOf vars) met.now }
        ensures order { IsOrder vars self.new }
        ensures step { self.new.step ≡ step_after self.old.step }
        ensures activity { AreActive self.old.step
            (met_all self.old.step met.now self.old.activity.items) self.new.activity.items }
        ensures saved { self.new.saved ≡ self.old.saved }
        ensures same { HaveSame self.old.heap.vars self.new.heap.vars }
    {
        for lit in met {
            self.raise(vars, lit.var());
        }
        self.advance(vars);
    }

    /// Raises the activity of a variable.
    fn raise(&mut self, vars: u64, var: u64)
        requires order { IsOrder vars self.old }
        requires range { var ≤ vars }
        ensures order { IsOrder vars self.new }
        ensures step { self.new.step ≡ self.old.step }
        ensures activity { self.new.activity.items ≡
            met_once self.old.step var self.old.activity.items }
        ensures saved { self.new.saved ≡ self.old.saved }
        ensures same { HaveSame self.old.heap.vars self.new.heap.vars }
    {
        let at = var as usize;
        self.activity[at] = self.activity[at].saturating_add(self.step);
        self.heap.raise(var, self.activity.as_slice());
    }

    /// Takes back the levels above this one. The variables that become unset keep their values for
    /// the next decisions.
    pub fn take_back(&mut self, core: &mut Core, level: u32)
        requires order { IsOrder core.old.vars self.old }
        requires below { level ≤ core.old.level }
        ensures taken { core.new ≡ at_level core.old level }
        ensures order { IsOrder core.old.vars self.new }
        ensures released { IsReleased (above core.old.trail level) self.old self.new }
        ensures waiting { HoldsUnset core.old.vars core.old.trail self.old →
            HoldsUnset core.new.vars core.new.trail self.new }
    {
        self.release(core, level);
        core.back_to(level);
    }

    /// Saves the values of the entries above a level, the last ones, and takes their variables for
    /// unset.
    fn release(&mut self, core: &Core, level: u32)
        requires { IsOrder core.now.vars self.old }
        ensures order { IsOrder core.now.vars self.new }
        ensures released { IsReleased (above core.now.trail level) self.old self.new }
    {
        let trail = core.entries();
        let mut place = trail.len();
        while place > 0 && trail[place - 1].level > level {
            place -= 1;
            let lit = trail[place].lit;
            self.saved[lit.var() as usize] = lit.positive();
            self.heap.put(lit.var(), self.activity.as_slice());
        }
    }

    /// Lets the next conflict count more than this one.
    fn advance(&mut self, vars: u64)
        requires { IsOrder vars self.old }
        ensures order { IsOrder vars self.new }
        ensures step { self.new.step ≡ step_after self.old.step }
        ensures activity { AreActive self.old.step self.old.activity.items self.new.activity.items }
        ensures saved { self.new.saved ≡ self.old.saved }
        ensures heap { self.new.heap ≡ self.old.heap }
    {
        self.step = self.step.saturating_add(self.step / 16);
        if self.step > GREATEST_STEP {
            self.step /= SCALE;
            scale(self.activity.as_mut_slice());
        }
    }
}

/// Makes activities smaller, but none 0.
fn scale(activities: &mut [u64])
    ensures { IsScaled activities.old activities.new }
{
    for activity in activities.iter_mut() {
        *activity = smaller(*activity);
    }
}

/// An activity made smaller, but not 0.
fn smaller(activity: u64) -> u64
    ensures { result ≡ scaled activity }
{
    if activity > 0 {
        activity / SCALE + 1
    } else {
        0
    }
}
