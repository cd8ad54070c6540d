//! The repair formula of a network of conditions.
ghost use Rattle.cnf_types.specs.Literals.{literal};
ghost use Rattle.condition_formula.specs.Formulas.{cell, repair_formula, tops_of};
ghost use Rattle.condition_formula.specs.Limits.{IsSmallNet, IsWithinLimits, IsFaultOfNet};
ghost use Rattle.condition_formula.specs.Lists.{upto};
ghost use Rattle.std.specs.Prelude.{◌≡◌, ◌<◌, ◌≤◌, ◌+◌, ◌-◌, [], ◌==◌, if◌then◌else◌, true, length};
ghost use Rattle.std.specs.Prelude.{map, take, OnOk, IfOk, IfErr};

use crate::counter::prices;
use crate::fault::EncodeFault;
use crate::literals::literal;
use crate::network::ConditionNet;
use crate::pushing::push;
use crate::questions::{questions, variable_count};
use crate::table::Table;
use crate::writer::Writer;
use arc_base::limits::{LITERAL_LIMIT, PRICE_LIMIT, VARIABLE_LIMIT};
use arc_base::{LimitKind, List, Memory};
use cnf_types::Lit;
use packed_formula::PackedFormula;
use std::alloc::Global;

/// The repair formula, and for each number up to the bound the literal that says that the price is
/// above it; no such literal if there are no edits.
#[derive(Debug, Drop)]
pub struct PackedEncoding {
    pub formula: PackedFormula,
    pub tops: List<Lit>,
}

/// For each number up to the bound the literal that says that the price of the chosen edits is
/// above it.
fn tops(alloc: Global, edits: u32, bound: u32, above: Table) -> Result<List<Lit>, Memory>
    requires { bound ≤ PRICE_LIMIT }
    ensures { IfOk result (λ tops. tops ≡ (if edits == 0 then []
        else map (λ number. literal (cell above.first above.columns (edits - 1) number) true)
        (upto (bound + 1)))) }
{
    let mut tops = List::make(alloc);
    if edits == 0 {
        return Ok(tops);
    }
    for number in 0..bound + 1 {
        push(&mut tops, literal(above.at(edits - 1, number), true))?;
    }
    Ok(tops)
}

/// The repair formula for prices up to the bound. It fails with the number of variables if that is
/// above `VARIABLE_LIMIT`, before it makes a clause, or else with the number of literals if that is
/// above `LITERAL_LIMIT`.
pub fn encode(alloc: Global, net: &ConditionNet, bound: u32) -> Result<PackedEncoding, EncodeFault>
    requires net { IsSmallNet net.now }
    requires bound { bound ≤ PRICE_LIMIT }
    ensures formula { IfOk result (λ encoded. encoded.formula ≡ repair_formula net.now bound) }
    ensures tops { IfOk result (λ encoded. encoded.tops ≡ tops_of net.now bound) }
    ensures limits { OnOk result (IsWithinLimits net.now bound) }
    ensures fault { IfErr result (IsFaultOfNet net.now bound) }
{
    let variables = variable_count(net, bound);
    if variables > VARIABLE_LIMIT {
        return Err(EncodeFault::Limit(LimitKind::Variables, variables));
    }
    let edits = net.weights.len();
    let mut out = Writer::make(alloc);
    let next = questions(
        &mut out,
        net.questions.slice(),
        net.nodes,
        net.links,
        u64::from(edits) + 1,
    )?;
    let above = Table {
        first: next,
        columns: bound + 1,
    };
    prices(&mut out, net.weights.slice(), bound, above)?;
    if out.literals > LITERAL_LIMIT {
        return Err(EncodeFault::Limit(LimitKind::Literals, out.literals));
    }
    let tops = tops(alloc, edits, bound, above)?;
    Ok(PackedEncoding {
        formula: PackedFormula::of(variables, out.clauses),
        tops,
    })
}

/// The first `count` values of a model, which are those of the edits.
pub fn model_edits(alloc: Global, model: &List<bool>, count: u32) -> Result<List<bool>, Memory>
    requires { count ≤ length model.now }
    ensures { IfOk result (λ flags. flags ≡ take count model.now) }
{
    let mut flags = List::make(alloc);
    for value in &model.slice()[..count as usize] {
        push(&mut flags, *value)?;
    }
    Ok(flags)
}
