//! The arcs over one link, and which of them belong to a class's graph.
ghost use Rattle.class_graph.specs.Building.{Answered, IsArcOver, IsNoArcOver, IsGraphBelow};
ghost use Rattle.class_graph.specs.Building.{number, flag, cost_from};
ghost use Rattle.net_model.specs.Tables.{AreRoutedLinks};
ghost use Rattle.net_model.specs.Validity.{IsValid};
ghost use Rattle.std.specs.Prelude.{◌≡◌, ◌+◌, OnOk, IfSome, IfNone};

use crate::answers::arc_allows;
use crate::hosts::HostPair;
use crate::modes::Mode;
use arc_base::{Link, List, Memory};
use graph_flow::{Arc, Graph};
use net_model::{FaceRow, Network, Protocol, RoutedLink};

/// Whether the link's arc in this direction is routed.
pub fn leads(flags: &RoutedLink, from_a: bool) -> bool
    ensures { result ≡ flag flags.now from_a }
{
    if from_a { flags.from_a } else { flags.from_b }
}

/// What an arc costs that begins at the interface.
pub fn cost(protocol: Protocol, tail: &FaceRow) -> u32
    ensures { result ≡ cost_from protocol tail.now }
{
    match protocol {
        Protocol::Ospf => tail.cost,
        Protocol::Bgp => 1,
    }
}

/// The arc over a link in one direction, if it is routed and of the mode.
fn arc_over(
    net: &Network,
    pair: &HostPair,
    answers: &List<bool>,
    mode: Mode,
    link: Link,
    from_a: bool,
) -> Option<Arc>
    requires { AreRoutedLinks net.now pair.now.to pair.now.routed }
    ensures some { IfSome result
        (IsArcOver net.now pair.now.to (Answered mode answers.now) link.0 from_a) }
    ensures none { IfNone result
        (IsNoArcOver net.now pair.now.to (Answered mode answers.now) link.0 from_a) }
{
    let flags = pair.routed.get(link.0)?;
    let row = net.links.get(link.0)?;
    let tail = net.faces.get(row.tail(from_a).0)?;
    let head = net.faces.get(row.head(from_a).0)?;
    if !leads(flags, from_a) {
        return None;
    }
    if !mode.takes(arc_allows(answers, tail, head), row.waypoint) {
        return None;
    }
    Some(Arc {
        link,
        tail: tail.router.0,
        head: head.router.0,
        cost: cost(net.protocol, tail),
    })
}

/// Adds the arc over a link in one direction, if it is routed and of the mode. The arcs of the
/// links before, and that in the other direction if it comes first, are there.
pub(crate) fn add_over(
    graph: &mut Graph,
    net: &Network,
    pair: &HostPair,
    answers: &List<bool>,
    mode: Mode,
    link: Link,
    from_a: bool,
) -> Result<(), Memory>
    requires valid { IsValid net.now }
    requires routed { AreRoutedLinks net.now pair.now.to pair.now.routed }
    requires below { IsGraphBelow net.now pair.now.to (Answered mode answers.now)
        (number link.0 from_a) graph.old }
    ensures { OnOk result (IsGraphBelow net.now pair.now.to (Answered mode answers.now)
        (number link.0 from_a + 1) graph.new) }
{
    if let Some(arc) = arc_over(net, pair, answers, mode, link, from_a) {
        graph.arc(arc)?;
    }
    Ok(())
}
