//! What a JSON value holds under a name, and in which form.
ghost use Rattle.net_doc.specs.Members.{are_among, has_only, number_under, text_under, list_under};
ghost use Rattle.serde_json.specs.View.{view, items_view, members_view};
ghost use Rattle.std.specs.List.{list_any};
ghost use Rattle.std.specs.Prelude.{◌≡◌, map, option_map, bytes_eq};

use serde_json::{Map, Value};

/// Whether the value is an object with no member but these.
pub(crate) fn has_only(value: &Value, names: &[&str]) -> bool
    ensures { result ≡ has_only (map (λ name. name.now) names.now) (view value.now) }
{
    match value {
        Value::Object(members) => are_among(members, names),
        _ => false,
    }
}

fn are_among(members: &Map<String, Value>, names: &[&str]) -> bool
    ensures { result
        ≡ are_among (map (λ name. name.now) names.now) (members_view members.now.entries) }
{
    for key in members.keys() {
        if !is_among(key.as_str(), names) {
            return false;
        }
    }
    true
}

fn is_among(key: &str, names: &[&str]) -> bool
    ensures { result
        ≡ list_any (λ known. bytes_eq known key.now) (map (λ name. name.now) names.now) }
{
    names.contains(&key)
}

/// The number under the name.
pub(crate) fn number_under(value: &Value, name: &str) -> Option<u64>
    ensures { result ≡ number_under name.now (view value.now) }
{
    value.get(name)?.as_u64()
}

/// The text under the name.
pub(crate) fn text_under<'v>(value: &'v Value, name: &str) -> Option<&'v str>
    ensures { option_map (λ text. text.now) result ≡ text_under name.now (view value.now) }
{
    value.get(name)?.as_str()
}

/// The list under the name.
pub(crate) fn list_under<'v>(value: &'v Value, name: &str) -> Option<&'v [Value]>
    ensures { option_map (λ items. items_view items.now) result
        ≡ list_under name.now (view value.now) }
{
    Some(value.get(name)?.as_array()?.as_slice())
}
