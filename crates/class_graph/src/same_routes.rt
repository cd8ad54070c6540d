//! Host networks of which a network answers the same, so that the same arcs are routed for them.
ghost use Rattle.class_graph.specs.LastGraphs.{AreAlike, IsGraphOfTable, IsToldOfIt};
ghost use Rattle.net_model.specs.Lists.{route_permits};
ghost use Rattle.net_model.specs.Routing.{Advertises};
ghost use Rattle.net_model.specs.Tables.{AreRoutedLinks};
ghost use Rattle.std.specs.Prelude.{◌≡◌, ◌↔◌, All, Any, Contains, IsTrue, IfOk, IfSome, Some};

use crate::last_graph::LastGraph;
use arc_base::{List, Memory, Prefix};
use net_model::{FaceRow, Network, RoutedLink};
use std::alloc::Global;

/// Whether each route list answers the same to both prefixes.
fn lists_agree(net: &Network, one: Prefix, other: Prefix) -> bool
    ensures { IsTrue result →
        All (λ l. route_permits l.entries one ≡ route_permits l.entries other) net.now.route_lists }
{
    for list in net.route_lists.slice() {
        if list.permits(one) != list.permits(other) {
            return false;
        }
    }
    true
}

/// Whether some interface advertises the host network, of which this interface is one.
fn is_told(net: &Network, target: &FaceRow, to: Prefix) -> bool
    requires face { Contains net.now.faces target.now }
    requires host { target.now.host ≡ Some to }
    ensures { IsTrue result ↔ Any (Advertises to) net.now.faces }
{
    if target.told && target.up {
        return true;
    }
    net.is_told(to)
}

/// Whether two answers are the same.
fn agree(one: bool, other: bool) -> bool
    ensures { IsTrue result → one ≡ other }
{
    one == other
}

/// Whether the network answers the same of the host network as of that of the last graph, where
/// `told` says whether some interface advertises it.
fn is_alike(net: &Network, last: &LastGraph, told: bool, to: Prefix) -> bool
    requires last { IsToldOfIt net.now last.now }
    requires told { IsTrue told ↔ Any (Advertises to) net.now.faces }
    ensures { IsTrue result → AreAlike net.now last.now.to to }
{
    if agree(told, last.told) {
        lists_agree(net, last.to, to)
    } else {
        false
    }
}

/// A copy of the table.
pub(crate) fn copy_of(alloc: Global, table: &List<RoutedLink>) -> Result<List<RoutedLink>, Memory>
    ensures { IfOk result (λ copy. copy ≡ table.now) }
{
    List::of(table.slice().to_vec(alloc)?)
}

/// For each link whether its arcs are routed for the host network of an interface. It is the table
/// of the last graph where the network answers the same of both.
pub(crate) fn routed_by(
    alloc: Global,
    net: &Network,
    target: &FaceRow,
    to: Prefix,
    last: &Option<LastGraph>,
) -> Result<List<RoutedLink>, Memory>
    requires face { Contains net.now.faces target.now }
    requires host { target.now.host ≡ Some to }
    requires last { IfSome last.now (IsGraphOfTable net.now) }
    ensures { IfOk result (AreRoutedLinks net.now to) }
{
    let Some(last) = last else {
        return net.routed_links(alloc, to);
    };
    if is_alike(net, last, is_told(net, target, to), to) {
        copy_of(alloc, &last.routed)
    } else {
        net.routed_links(alloc, to)
    }
}
