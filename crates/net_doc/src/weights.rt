//! The weights of edits.
ghost use Rattle.net_doc.specs.Documents.{weight_from, weight_under, weights_from, weights_of};
ghost use Rattle.serde_json.specs.View.{view};
ghost use Rattle.std.specs.Prelude.{◌≡◌};

use crate::members::has_only;
use arc_base::limits::WEIGHT_LIMIT;
use net_model::Weights;
use serde_json::Value;

/// The weights, which are 1 where the document does not say otherwise.
pub(crate) fn read_weights(value: &Value) -> Option<Weights>
    ensures { result ≡ weights_of (view value.now) }
{
    match value.get("weights") {
        Some(weights) => weights_from(weights),
        None => Some(Weights {
            list: 1,
            filter: 1,
            session: 1,
        }),
    }
}

fn weights_from(value: &Value) -> Option<Weights>
    ensures { result ≡ weights_from (view value.now) }
{
    let weights = Weights {
        list: weight_under(value, "list")?,
        filter: weight_under(value, "filter")?,
        session: weight_under(value, "session")?,
    };
    if has_only(value, &["list", "filter", "session"]) {
        Some(weights)
    } else {
        None
    }
}

/// The weight under the name, or 1.
fn weight_under(value: &Value, name: &str) -> Option<u32>
    ensures { result ≡ weight_under name.now (view value.now) }
{
    match value.get(name) {
        Some(weight) => weight_from(weight),
        None => Some(1),
    }
}

fn weight_from(value: &Value) -> Option<u32>
    ensures { result ≡ weight_from (view value.now) }
{
    let weight = value.as_u64()?;
    if weight >= 1 && weight <= WEIGHT_LIMIT {
        Some(weight as u32)
    } else {
        None
    }
}
