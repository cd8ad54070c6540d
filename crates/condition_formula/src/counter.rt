//! Clauses that count the price in unary: a sequential counter with weights.
ghost use Rattle.condition_formula.specs.Formulas.{cell};
ghost use Rattle.condition_formula.specs.Lists.{upto};
ghost use Rattle.condition_formula.specs.Prices.{kept_parts, added_parts, price_parts};
ghost use Rattle.condition_formula.specs.Writing.{Adds};
ghost use Rattle.std.specs.Prelude.{◌<◌, ◌≤◌, ◌+◌, ◌^◌, ◌++◌, length, flat_map, OnOk};

use crate::part::{edit_variable, no, yes};
use crate::table::Table;
use crate::writer::Writer;
use arc_base::Memory;

/// If the edits before it cost more than the number, they do so with this edit too.
fn kept(out: &mut Writer, above: Table, edit: u32, number: u32) -> Result<(), Memory>
    ensures { OnOk result
        (Adds out.old out.new (kept_parts (cell above.first above.columns) edit number)) }
{
    if edit == 0 {
        return Ok(());
    }
    out.put(&[no(above.at(edit - 1, number)), yes(above.at(edit, number))])
}

/// A chosen edit adds its weight to the price of the edits before it, and costs more than each
/// number below its weight by itself.
fn added(out: &mut Writer, above: Table, weight: u32, edit: u32, number: u32) -> Result<(), Memory>
    ensures { OnOk result
        (Adds out.old out.new (added_parts (cell above.first above.columns) weight edit number)) }
{
    let chosen = no(edit_variable(edit));
    let more = yes(above.at(edit, number));
    if number < weight {
        return out.put(&[chosen, more]);
    }
    if edit == 0 {
        return Ok(());
    }
    out.put(&[chosen, no(above.at(edit - 1, number - weight)), more])
}

/// The clauses of an edit, for each number up to the bound.
fn counted(out: &mut Writer, above: Table, bound: u32, weight: u32, edit: u32) -> Result<(), Memory>
    requires { bound ≤ 65535 }
    ensures { OnOk result (Adds out.old out.new
        (flat_map (λ number. kept_parts (cell above.first above.columns) edit number ++
        added_parts (cell above.first above.columns) weight edit number) (upto (bound + 1)))) }
{
    for number in 0..bound + 1 {
        kept(out, above, edit, number)?;
        added(out, above, weight, edit, number)?;
    }
    Ok(())
}

/// The clauses of the counter, for each number up to the bound.
pub(crate) fn prices(
    out: &mut Writer,
    weights: &[u32],
    bound: u32,
    above: Table,
) -> Result<(), Memory>
    requires bound { bound ≤ 65535 }
    requires few { length weights.now < 2 ^ 32 }
    ensures { OnOk result
        (Adds out.old out.new (price_parts weights.now bound (cell above.first above.columns))) }
{
    for edit in 0..weights.len() as u32 {
        counted(out, above, bound, weights[edit as usize], edit)?;
    }
    Ok(())
}
