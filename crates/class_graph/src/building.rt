//! Building the graph of a class, or of all routed arcs.
ghost use Rattle.class_graph.specs.Building.{Answered};
ghost use Rattle.class_graph.specs.Graphs.{IsGraphOf, IsAnyArc, IsGraphOfClass};
ghost use Rattle.class_graph.specs.Hosts.{HasHostPair};
ghost use Rattle.net_model.specs.Forwarding.{HasEnds};
ghost use Rattle.net_model.specs.Tables.{AreRoutedLinks};
ghost use Rattle.net_model.specs.Validity.{IsValid};
ghost use Rattle.net_model.specs.Witnesses.{IsUniformFor};
ghost use Rattle.std.specs.Prelude.{IfOk};

use crate::answers::list_answers;
use crate::arcs::add_over;
use crate::hosts::{HostPair, host_pair};
use crate::modes::Mode;
use arc_base::{Link, List, Memory, Router};
use graph_flow::Graph;
use net_model::{Class, Network};
use std::alloc::Global;

/// How the packets of a class may go through the network: where they would enter and leave, whether
/// they do, and the arcs between. A node is the place of a router.
#[derive(Debug, Drop)]
pub struct ClassGraph {
    pub graph: Graph,
    pub source: Router,
    pub target: Router,
    pub enters: bool,
    pub leaves: bool,
}

/// The graph of a class that goes from one host network to another, and on which each packet list
/// is uniform.
pub fn build(alloc: Global, net: &Network, class: Class, mode: Mode) -> Result<ClassGraph, Memory>
    requires valid { IsValid net.now }
    requires ends { HasEnds net.now class }
    requires uniform { IsUniformFor net.now class }
    ensures { IfOk result (IsGraphOfClass net.now class mode) }
{
    let pair = host_pair(alloc, net, class, &None)?;
    let answers = list_answers(alloc, net, class)?;
    let graph = graph_of(alloc, net, &pair, &answers, mode)?;
    Ok(ClassGraph {
        graph,
        source: pair.source.router,
        target: pair.target.router,
        enters: pair.source.is_open(&answers),
        leaves: pair.target.is_open(&answers),
    })
}

/// The graph of all routed arcs, whatever lists deny.
pub fn routed_graph(alloc: Global, net: &Network, pair: &HostPair) -> Result<Graph, Memory>
    requires valid { IsValid net.now }
    requires pair { HasHostPair net.now pair.now }
    ensures { IfOk result (IsGraphOf net.now pair.now.to IsAnyArc) }
{
    graph_of(alloc, net, pair, &List::make(alloc), Mode::Routed)
}

/// The graph of the routed arcs of the mode, where this is what lists answer.
fn graph_of(
    alloc: Global,
    net: &Network,
    pair: &HostPair,
    answers: &List<bool>,
    mode: Mode,
) -> Result<Graph, Memory>
    requires valid { IsValid net.now }
    requires routed { AreRoutedLinks net.now pair.now.to pair.now.routed }
    ensures { IfOk result (IsGraphOf net.now pair.now.to (Answered mode answers.now)) }
{
    let mut graph = Graph::make(alloc, net.routers.len())?;
    for place in 0..net.links.len() {
        add_over(&mut graph, net, pair, answers, mode, Link(place), true)?;
        add_over(&mut graph, net, pair, answers, mode, Link(place), false)?;
    }
    Ok(graph)
}
