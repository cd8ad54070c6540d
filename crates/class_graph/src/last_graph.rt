//! The graph of all routed arcs that was built last. It serves each host network for which the same
//! arcs are routed.
ghost use Rattle.class_graph.specs.Graphs.{IsGraphOf, IsAnyArc};
ghost use Rattle.class_graph.specs.Hosts.{HasHostPair};
ghost use Rattle.class_graph.specs.LastGraphs.{IsGraphOfTable};
ghost use Rattle.net_model.specs.Validity.{IsValid};
ghost use Rattle.std.specs.Prelude.{◌≡◌, IsTrue, IsSome, IsSomeAnd, IfSome, IfOk, OnOk};

use crate::building::routed_graph;
use crate::hosts::HostPair;
use crate::listed::listed_links;
use crate::same_routes::copy_of;
use arc_base::{List, Memory, Prefix};
use graph_flow::Graph;
use net_model::{Network, RoutedLink};
use std::alloc::Global;

/// A graph of all routed arcs, with the table that says which these are.
#[derive(Debug, Drop)]
pub struct LastGraph {
    /// The host network that it was built for.
    pub to: Prefix,
    /// Whether some interface that is up advertises it.
    pub told: bool,
    pub routed: List<RoutedLink>,
    pub graph: Graph,
    /// The table of the links with packet lists.
    pub listed: List<bool>,
}

/// Whether the same arcs of a link are routed.
fn is_same(one: RoutedLink, other: RoutedLink) -> bool
    ensures { IsTrue result → one ≡ other }
{
    one.from_a == other.from_a && one.from_b == other.from_b
}

/// Whether the tables are the same.
fn are_same(one: &[RoutedLink], other: &[RoutedLink]) -> bool
    ensures { IsTrue result → one.now ≡ other.now }
{
    if one.len() != other.len() {
        return false;
    }
    for place in 0..one.len() {
        if !is_same(one[place], other[place]) {
            return false;
        }
    }
    true
}

/// Whether the last graph has the arcs that are routed for the pair.
fn serves(last: &Option<LastGraph>, pair: &HostPair) -> bool
    ensures { IsTrue result → IsSomeAnd last.now (λ l. l.routed ≡ pair.now.routed) }
{
    match last {
        Some(last) => are_same(last.routed.slice(), pair.routed.slice()),
        None => false,
    }
}

/// The graph of the arcs that are routed for the pair, with their table.
fn build(alloc: Global, net: &Network, pair: &HostPair) -> Result<LastGraph, Memory>
    requires valid { IsValid net.now }
    requires pair { HasHostPair net.now pair.now }
    ensures table { IfOk result (IsGraphOfTable net.now) }
    ensures graph { IfOk result (λ l. IsGraphOf net.now pair.now.to IsAnyArc l.graph) }
{
    let routed = copy_of(alloc, &pair.routed)?;
    let graph = routed_graph(alloc, net, pair)?;
    let listed = listed_links(alloc, net)?;
    Ok(LastGraph {
        to: pair.to,
        told: net.is_told(pair.to),
        routed,
        graph,
        listed,
    })
}

/// Makes the last graph that of all routed arcs for the pair. It is built only where the last one
/// has other arcs.
pub fn refresh_graph(
    alloc: Global,
    net: &Network,
    pair: &HostPair,
    last: &mut Option<LastGraph>,
) -> Result<(), Memory>
    requires valid { IsValid net.now }
    requires pair { HasHostPair net.now pair.now }
    requires last { IfSome last.old (IsGraphOfTable net.now) }
    ensures last { IfSome last.new (IsGraphOfTable net.now) }
    ensures graph { OnOk result
        (IsSomeAnd last.new (λ l. IsGraphOf net.now pair.now.to IsAnyArc l.graph)) }
{
    if serves(last, pair) {
        return Ok(());
    }
    *last = Some(build(alloc, net, pair)?);
    Ok(())
}

/// The last graph.
pub fn graph_in(last: &Option<LastGraph>) -> &Graph
    requires { IsSome last.now }
    ensures { IfSome last.now (λ l. result.now ≡ l.graph) }
{
    match last {
        Some(last) => &last.graph,
        None => unreachable!(),
    }
}

/// The table of links beside the last graph.
pub fn listed_in(last: &Option<LastGraph>) -> &List<bool>
    requires { IsSome last.now }
    ensures { IfSome last.now (λ l. result.now ≡ l.listed) }
{
    match last {
        Some(last) => &last.listed,
        None => unreachable!(),
    }
}
