//! The search for the cheapest repair.
ghost use Rattle.arc_repair.specs.Search.{IsSearched};
ghost use Rattle.clean_logs.specs.CleanLogs.{additions};
ghost use Rattle.edit_list.specs.Determined.{IsCountable};
ghost use Rattle.edit_list.specs.EditLists.{AreEdits};
ghost use Rattle.net_model.specs.Validity.{IsValid};
ghost use Rattle.policy_encode.specs.Formulas.{IsRepairFormula};
ghost use Rattle.price_descent.specs.Outcomes.{found_steps};
ghost use Rattle.proof_log.specs.Texts.{HasLine};
ghost use Rattle.std.specs.Prelude.{◌≤◌, All, IfOk};

use crate::costs::Costs;
use arc_base::limits::{CONFLICT_LIMIT, PRICE_LIMIT, VARIABLE_LIMIT};
use arc_base::{List, Memory};
use edit_list::Edit;
use edit_space::laws::networks_after_edits_are_valid;
use net_model::{Document, Network};
use policy_encode::PackedEncoding;
use policy_encode::laws::{formulas_are_searchable, models_are_repairs, one_model_serves};
use price_descent::{Found, descend};
use run_progress::Listener;
use std::alloc::Global;

/// The cheapest edits that mend the network, by a descent over the prices of the formula's models.
pub(crate) fn cheapest<L: Listener>(
    alloc: Global,
    net: &Network,
    doc: &Document,
    list: &List<Edit>,
    encoded: PackedEncoding,
    bound: u32,
    limit: u64,
    listener: &mut L,
) -> Result<Found, Memory>
    requires valid { IsValid net.now }
    requires countable { IsCountable net.now }
    requires edits { AreEdits net.now doc.now list.now }
    requires formula { IsRepairFormula net.now doc.now list.now bound
        encoded.formula encoded.tops }
    requires variables { encoded.formula.vars ≤ VARIABLE_LIMIT }
    requires bound { bound ≤ PRICE_LIMIT }
    requires limit { limit ≤ CONFLICT_LIMIT }
    ensures searched { IfOk result (IsSearched net.now doc.now list.now bound limit) }
    ensures lines { IfOk result (λ found. All HasLine (found_steps found)) }
    ensures within { IfOk result (λ found. additions (found_steps found) ≤ limit) }
{
    networks_after_edits_are_valid();
    models_are_repairs();
    one_model_serves();
    formulas_are_searchable();
    let costs = Costs { doc, edits: list };
    let PackedEncoding { formula, tops } = encoded;
    let found = descend(
        alloc,
        &costs,
        formula,
        &tops,
        list.len(),
        bound,
        limit,
        listener,
    )?;
    Ok(found)
}
