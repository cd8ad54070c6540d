//! The destinations of policies.
ghost use Rattle.edit_list.specs.EditLists.{LiesInHost, is_same, with_prefix, AreDestinations};
ghost use Rattle.net_model.specs.Forwarding.{HasHost};
ghost use Rattle.std.specs.List.{list_any};
ghost use Rattle.std.specs.Prelude.{◌≡◌, ◌≤◌, length, All, IfOk, OnOk};

use arc_base::{List, Memory, Prefix};
use net_model::{Network, Policy};
use std::alloc::Global;

/// The host network in which a prefix lies.
fn host_network(net: &Network, prefix: Prefix) -> Prefix
    requires { HasHost net.now prefix }
    ensures { LiesInHost net.now prefix result }
{
    match net.host_face(prefix).host {
        Some(host) => host,
        None => unreachable!(),
    }
}

fn is_same(p: &Prefix, q: &Prefix) -> bool
    ensures { result ≡ is_same p.now q.now }
{
    p.addr == q.addr && p.len == q.len
}

fn contains(prefixes: &[Prefix], prefix: Prefix) -> bool
    ensures { result ≡ list_any (is_same prefix) prefixes.now }
{
    prefixes.iter().any(|p| is_same(&prefix, p))
}

/// Appends a prefix, unless it is there.
fn add_prefix(prefixes: &mut Vec<Prefix>, prefix: Prefix) -> Result<(), Memory>
    ensures { OnOk result (prefixes.new.items ≡ with_prefix prefixes.old.items prefix) }
{
    if contains(prefixes, prefix) {
        return Ok(());
    }
    prefixes.push(prefix)?;
    Ok(())
}

/// The host networks in which the destinations of policies lie, each once, in the order of the
/// first policy.
pub fn destinations(
    alloc: Global,
    net: &Network,
    policies: &List<Policy>,
) -> Result<Vec<Prefix>, Memory>
    requires hosts { All (λ policy. HasHost net.now policy.to) policies.now }
    ensures are { IfOk result (λ list. AreDestinations net.now policies.now list.items) }
    ensures few { IfOk result (λ list. length list.items ≤ length policies.now) }
{
    let mut list = Vec::new(alloc);
    for policy in policies.slice() {
        add_prefix(&mut list, host_network(net, policy.to))?;
    }
    Ok(list)
}
