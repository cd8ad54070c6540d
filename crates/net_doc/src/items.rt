//! The routers, the links and the policies of a document.
ghost use Rattle.net_doc.specs.Documents.{router_of, are_different, data_routers, data_end};
ghost use Rattle.net_doc.specs.Documents.{waypoint_of, data_link, data_links, policy_kind};
ghost use Rattle.net_doc.specs.Documents.{policy_members};
ghost use Rattle.net_doc.specs.Documents.{policy_of, policies_of};
ghost use Rattle.net_doc.specs.Drafts.{kind_meant, policy_meant};
ghost use Rattle.net_doc.specs.Members.{all_of, has_only, text_under};
ghost use Rattle.serde_json.specs.View.{view, items_view};
ghost use Rattle.std.specs.Prelude.{◌≡◌, map, option_map, option_and_then, IfOk};

use crate::drafts::{KindText, PolicyText};
use crate::members::{has_only, list_under, number_under, text_under};
use crate::services::read_services;
use arc_base::limits::FILE_NAME_LIMIT;
use arc_base::{List, Memory, Name, cut_at, read_prefix};
use indexmap::IndexSet;
use net_model::LinkText;
use serde_json::Value;
use std::alloc::Global;

/// The routers' files.
pub(crate) fn read_routers(alloc: Global, value: &Value) -> Result<Option<List<Name>>, Memory>
    ensures { IfOk result (λ routers. routers ≡ data_routers (view value.now)) }
{
    let Some(items) = list_under(value, "routers") else {
        return Ok(None);
    };
    let Some(names) = read_names(alloc, items)? else {
        return Ok(None);
    };
    if names.is_empty() || !are_different(alloc, names.as_slice())? {
        return Ok(None);
    }
    Ok(Some(List::of(names)?))
}

fn read_names(alloc: Global, items: &[Value]) -> Result<Option<Vec<Name>>, Memory>
    ensures { IfOk result (λ names.
        option_map (λ names. names.items) names ≡ all_of router_of (items_view items.now)) }
{
    let mut names = Vec::new(alloc);
    for item in items {
        let Some(name) = read_router(item) else {
            return Ok(None);
        };
        names.push(Name::make(alloc, name.as_bytes())?)?;
    }
    Ok(Some(names))
}

fn read_router(value: &Value) -> Option<&str>
    ensures { option_map (λ name. name.now) result ≡ router_of (view value.now) }
{
    let name = value.as_str()?;
    if name.is_empty() || name.len() > FILE_NAME_LIMIT {
        return None;
    }
    Some(name)
}

fn are_different(alloc: Global, names: &[Name]) -> Result<bool, Memory>
    ensures { IfOk result (λ answer. answer ≡ are_different names.now) }
{
    let mut seen = IndexSet::new(alloc);
    for name in names {
        if !seen.insert(name.bytes())? {
            return Ok(false);
        }
    }
    Ok(true)
}

/// The links.
pub(crate) fn read_links(alloc: Global, value: &Value) -> Result<Option<List<LinkText>>, Memory>
    ensures { IfOk result (λ links. links ≡ data_links (view value.now)) }
{
    let Some(items) = list_under(value, "links") else {
        return Ok(None);
    };
    let mut links = Vec::new(alloc);
    for item in items {
        let Some(link) = read_link(alloc, item)? else {
            return Ok(None);
        };
        links.push(link)?;
    }
    Ok(Some(List::of(links)?))
}

fn read_link(alloc: Global, value: &Value) -> Result<Option<LinkText>, Memory>
    ensures { IfOk result (λ link. link ≡ data_link (view value.now)) }
{
    if !has_only(value, &["a", "b", "waypoint"]) {
        return Ok(None);
    }
    let (Some(a), Some(b)) = (read_end(value, "a"), read_end(value, "b")) else {
        return Ok(None);
    };
    let Some(waypoint) = read_waypoint(value) else {
        return Ok(None);
    };
    Ok(Some(LinkText {
        a_router: Name::make(alloc, a.0)?,
        a_face: Name::make(alloc, a.1)?,
        b_router: Name::make(alloc, b.0)?,
        b_face: Name::make(alloc, b.1)?,
        waypoint,
    }))
}

/// Whether the link is a waypoint: by default it is not.
fn read_waypoint(value: &Value) -> Option<bool>
    ensures { result ≡ waypoint_of (view value.now) }
{
    match value.get("waypoint") {
        Some(flag) => flag.as_bool(),
        None => Some(false),
    }
}

fn read_end<'v>(value: &'v Value, name: &str) -> Option<(&'v [u8], &'v [u8])>
    ensures { option_map (λ parts. (parts.0.now, parts.1.now)) result
        ≡ option_and_then data_end (text_under name.now (view value.now)) }
{
    cut_at(text_under(value, name)?.as_bytes(), b':')
}

/// The policies of a document of this version.
pub(crate) fn read_policies(
    alloc: Global,
    version: u64,
    value: &Value,
) -> Result<Option<Vec<PolicyText>>, Memory>
    ensures { IfOk result (λ policies.
        option_map (λ policies. map policy_meant policies.items) policies
        ≡ policies_of version (view value.now)) }
{
    let Some(items) = list_under(value, "policies") else {
        return Ok(None);
    };
    let mut policies = Vec::new(alloc);
    for item in items {
        let Some(policy) = read_policy(version, item) else {
            return Ok(None);
        };
        policies.push(policy)?;
    }
    Ok(Some(policies))
}

fn read_policy(version: u64, value: &Value) -> Option<PolicyText>
    ensures { option_map policy_meant result ≡ policy_of version (view value.now) }
{
    let kind = read_kind(text_under(value, "kind")?, number_under(value, "failures"))?;
    let from = read_prefix(text_under(value, "from")?.as_bytes())?;
    let to = read_prefix(text_under(value, "to")?.as_bytes())?;
    let service = read_services(value)?;
    if has_policy_members(version, value, kind) {
        Some(PolicyText {
            kind,
            from,
            to,
            service,
        })
    } else {
        None
    }
}

fn has_policy_members(version: u64, value: &Value, kind: KindText) -> bool
    ensures { result ≡ has_only (policy_members version (kind_meant kind)) (view value.now) }
{
    if version == 2 {
        return has_members(value, kind);
    }
    match kind {
        KindText::Blocked | KindText::Through => has_only(value, &["kind", "from", "to"]),
        KindText::Reach(_) => has_only(value, &["kind", "from", "to", "failures"]),
    }
}

/// Whether the policy has no members but those of version 2.
fn has_members(value: &Value, kind: KindText) -> bool
    ensures { result ≡ has_only (policy_members 2 (kind_meant kind)) (view value.now) }
{
    match kind {
        KindText::Blocked | KindText::Through => {
            has_only(value, &["proto", "port", "kind", "from", "to"])
        }
        KindText::Reach(_) => {
            has_only(value, &["proto", "port", "kind", "from", "to", "failures"])
        }
    }
}

fn read_kind(text: &str, failures: Option<u64>) -> Option<KindText>
    ensures { option_map kind_meant result ≡ policy_kind text.now failures }
{
    match text {
        "blocked" => Some(KindText::Blocked),
        "through" => Some(KindText::Through),
        "reach" => Some(KindText::Reach(failures?)),
        _ => None,
    }
}
