//! The core that a descent begins with. The last clauses of a repair formula count the price edit
//! by edit, in blocks that have clauses for each number, and propagation goes from block to block
//! at one number. So the core gets the first clause of each block, then the second one of each, and
//! so on: what propagation needs one after another then lies side by side in memory. Each clause
//! has the id of its place in the formula, whatever the order.
ghost use Rattle.clean_logs.specs.Laws.{HasItsVariables};
ghost use Rattle.price_descent.specs.Loading.{HasPart, HasFormula, AreKept, is_there};
ghost use Rattle.sat_core.specs.States.{no_clauses};
ghost use Rattle.std.specs.Prelude.{◌≡◌, ◌+◌, ◌<◌, ◌≤◌, ◌^◌, ℕ, length, IfOk, OnOk, IsTrue};

use arc_base::Memory;
use arc_base::limits::VARIABLE_LIMIT;
use packed_formula::PackedFormula;
use sat_core::Core;
use std::alloc::Global;

/// How the clauses of a formula are arranged: `blocks` blocks of `size` clauses come after `head`
/// others. Only speed depends on it.
#[derive(Clone, Copy, Debug)]
pub(crate) struct Arrangement {
    head: u64,
    blocks: u64,
    size: u64,
}

impl Arrangement {
    /// The arrangement of a repair formula of this many clauses, whose first edit has no block,
    /// while the others have two clauses for each number.
    pub fn of(clauses: u32, edits: u32, numbers: u32) -> Arrangement {
        let blocks = u64::from(edits).saturating_sub(1);
        let size = 2 * u64::from(numbers);
        Arrangement {
            head: u64::from(clauses).saturating_sub(blocks.saturating_mul(size)),
            blocks,
            size,
        }
    }

    /// The place of the clause that comes at a step.
    fn place(&self, step: u64) -> u64 {
        if step < self.head || self.blocks == 0 {
            return step;
        }
        let past = step - self.head;
        let block = past % self.blocks;
        block
            .saturating_mul(self.size)
            .saturating_add(past / self.blocks)
            .saturating_add(self.head)
    }
}

/// Adds the clause at a place, if there is one, unless it was added before.
fn enter(
    core: &mut Core,
    formula: &PackedFormula,
    there: &mut [bool],
    place: u64,
) -> Result<(), Memory>
    requires variables { HasItsVariables formula.now }
    requires part { HasPart formula.now there.old core.old }
    ensures part { OnOk result (HasPart formula.now there.new core.new) }
    ensures there { OnOk result (place < length formula.now.clauses →
        IsTrue (is_there there.new (place + 1))) }
    ensures kept { OnOk result (AreKept there.old there.new) }
{
    let clauses = formula.clauses();
    if place >= u64::from(clauses.len()) {
        return Ok(());
    }
    let at = place as usize + 1;
    if there[at] {
        return Ok(());
    }
    core.add(place + 1, clauses.lits(place as u32))?;
    there[at] = true;
    Ok(())
}

/// Adds clauses in the order of the arrangement.
fn enter_arranged(
    core: &mut Core,
    formula: &PackedFormula,
    there: &mut [bool],
    arrangement: Arrangement,
) -> Result<(), Memory>
    requires variables { HasItsVariables formula.now }
    requires part { HasPart formula.now there.old core.old }
    ensures part { OnOk result (HasPart formula.now there.new core.new) }
{
    for step in 0..formula.clauses().len() {
        enter(core, formula, there, arrangement.place(u64::from(step)))?;
    }
    Ok(())
}

/// Adds all clauses that were not added before.
fn enter_all(core: &mut Core, formula: &PackedFormula, there: &mut [bool]) -> Result<(), Memory>
    requires variables { HasItsVariables formula.now }
    requires part { HasPart formula.now there.old core.old }
    ensures part { OnOk result (HasPart formula.now there.new core.new) }
    ensures all { OnOk result ((place : ℕ) → place < length formula.now.clauses →
        IsTrue (is_there there.new (place + 1))) }
{
    for place in 0..formula.clauses().len() {
        enter(core, formula, there, u64::from(place))?;
    }
    Ok(())
}

/// Adds the clauses of the formula to an empty core, in the order of their arrangement.
fn fill(
    alloc: Global,
    core: &mut Core,
    formula: &PackedFormula,
    edits: u32,
    numbers: u32,
) -> Result<(), Memory>
    requires variables { HasItsVariables formula.now }
    requires empty { core.old ≡ no_clauses formula.now.vars }
    ensures formula { OnOk result (HasFormula formula.now core.new) }
    ensures few { OnOk result (length formula.now.clauses < 2 ^ 32) }
{
    let count = formula.clauses().len();
    let mut there = vec![in alloc; false; count as usize + 1]?;
    let arrangement = Arrangement::of(count, edits, numbers);
    let flags = there.as_mut_slice();
    enter_arranged(core, formula, flags, arrangement)?;
    enter_all(core, formula, flags)?;
    Ok(())
}

/// A core with the clauses of the formula, under the ids from 1 on. The formula's memory is freed.
pub(crate) fn loaded(
    alloc: Global,
    formula: PackedFormula,
    edits: u32,
    numbers: u32,
) -> Result<Core, Memory>
    requires variables { HasItsVariables formula }
    requires few { formula.vars ≤ VARIABLE_LIMIT }
    ensures formula { IfOk result (HasFormula formula) }
    ensures few { IfOk result (λ core. length formula.clauses < 2 ^ 32) }
{
    let mut core = Core::make(alloc, formula.vars())?;
    fill(alloc, &mut core, &formula, edits, numbers)?;
    Ok(core)
}
