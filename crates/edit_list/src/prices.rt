//! The edits that are chosen, and what they cost.
ghost use Rattle.edit_list.specs.Prices.{if_chosen, chosen_of, weight, cost_of, price_of, none_of};
ghost use Rattle.std.specs.Prelude.{◌≡◌, ◌<◌, length, IfOk};

use crate::edit_kinds::Edit;
use arc_base::{List, Memory};
use net_model::{Document, Weights};
use std::alloc::Global;

/// The edit, if its flag says that it is chosen.
fn if_chosen(edit: Edit, flag: bool) -> Option<Edit>
    ensures { result ≡ if_chosen (edit, flag) }
{
    if flag { Some(edit) } else { None }
}

/// The edits that the flags choose, in their order.
pub fn chosen_edits(alloc: Global, edits: &[Edit], chosen: &[bool]) -> Result<Vec<Edit>, Memory>
    ensures { IfOk result (λ list. list.items ≡ chosen_of edits.now chosen.now) }
{
    Ok(
        edits
            .iter()
            .zip(chosen)
            .filter_map(|(e, f)| if_chosen(*e, *f))
            .collect(alloc)?,
    )
}

/// A flag for each of the edits, which chooses none.
pub fn unchosen(alloc: Global, edits: &[Edit]) -> Result<Vec<bool>, Memory>
    ensures { IfOk result (λ flags. flags.items ≡ none_of edits.now) }
{
    Ok(edits.iter().map(|_| false).collect(alloc)?)
}

/// What an edit costs.
pub fn weight(weights: &Weights, edit: &Edit) -> u32
    ensures { result ≡ weight weights.now edit.now }
{
    match edit {
        Edit::Session(_) => weights.session,
        Edit::RouteList(_, _) | Edit::RouteNew(_, _) => weights.filter,
        Edit::PacketList(_, _) | Edit::PacketNew(_, _) => weights.list,
    }
}

/// What an edit costs if its flag says that it is chosen.
fn cost(weights: &Weights, edit: &Edit, flag: bool) -> u32
    ensures { result ≡ cost_of weights.now (edit.now, flag) }
{
    if flag { weight(weights, edit) } else { 0 }
}

/// What the chosen edits cost together, by the weights of the document.
pub fn price(doc: &Document, edits: &List<Edit>, chosen: &[bool]) -> u64
    requires { length chosen.now ≡ length edits.now }
    ensures { result ≡ price_of doc.now.weights (chosen_of edits.now chosen.now) }
{
    let mut sum = 0;
    for (place, edit) in edits.slice().iter().enumerate() {
        sum += u64::from(cost(&doc.weights, edit, chosen[place]));
    }
    sum
}
