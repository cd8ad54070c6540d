//! The part of the graph of all routed arcs that the packets of a class may go over.
ghost use Rattle.class_graph.specs.Graphs.{IsGraphOf, IsAnyArc, IsClassGraph};
ghost use Rattle.class_graph.specs.Hosts.{IsHostPair};
ghost use Rattle.class_graph.specs.Parts.{AreOpenLinks, IsOpenAt, part_of};
ghost use Rattle.graph_flow.specs.Paths.{Digraph};
ghost use Rattle.net_model.specs.Forwarding.{Ends};
ghost use Rattle.net_model.specs.Validity.{IsValid};
ghost use Rattle.net_model.specs.Witnesses.{IsUniformFor};
ghost use Rattle.std.specs.Prelude.{IfOk};

use crate::answers::{arc_allows, list_answers};
use crate::hosts::HostPair;
use crate::modes::Mode;
use arc_base::{List, Memory, Router};
use graph_flow::OpenLink;
use net_model::{Class, Network};
use std::alloc::Global;

/// How the packets of a class may go through the graph of all routed arcs: where they would enter
/// and leave, whether they do, and for each link which of its arcs they may go over.
#[derive(Debug, Drop)]
pub struct ClassPart {
    pub table: List<OpenLink>,
    pub source: Router,
    pub target: Router,
    pub enters: bool,
    pub leaves: bool,
}

/// The part of a class of the graph of all routed arcs between two host networks. It looks at each
/// list and each link once, and builds no graph.
pub fn class_part(
    alloc: Global,
    net: &Network,
    pair: &HostPair,
    class: Class,
    mode: Mode,
) -> Result<ClassPart, Memory>
    requires valid { IsValid net.now }
    requires uniform { IsUniformFor net.now class }
    ensures { IfOk result (λ part. (ends : Ends) (g : Digraph) → IsHostPair net.now ends pair.now →
        IsGraphOf net.now pair.now.to IsAnyArc g →
        IsClassGraph net.now ends class mode (part_of g part)) }
{
    let answers = list_answers(alloc, net, class)?;
    let table = open_links(alloc, net, &answers, mode)?;
    Ok(ClassPart {
        table,
        source: pair.source.router,
        target: pair.target.router,
        enters: pair.source.is_open(&answers),
        leaves: pair.target.is_open(&answers),
    })
}

/// For each link which of its arcs are of the mode, where this is what lists answer.
fn open_links(
    alloc: Global,
    net: &Network,
    answers: &List<bool>,
    mode: Mode,
) -> Result<List<OpenLink>, Memory>
    ensures { IfOk result (AreOpenLinks net.now mode answers.now) }
{
    let mut table = List::make(alloc);
    for place in 0..net.links.len() {
        table.push(open_at(net, answers, mode, place))?;
    }
    Ok(table)
}

/// Which arcs of the link at a place are of the mode.
fn open_at(net: &Network, answers: &List<bool>, mode: Mode, place: u32) -> OpenLink
    ensures { IsOpenAt net.now mode answers.now place result }
{
    let none = OpenLink {
        up: false,
        down: false,
    };
    let Some(link) = net.links.get(place) else {
        return none;
    };
    let Some(a) = net.faces.get(link.a.0) else {
        return none;
    };
    let Some(b) = net.faces.get(link.b.0) else {
        return none;
    };
    let forth = mode.takes(arc_allows(answers, a, b), link.waypoint);
    let back = mode.takes(arc_allows(answers, b, a), link.waypoint);
    if a.router.0 < b.router.0 {
        OpenLink {
            up: forth,
            down: back,
        }
    } else {
        OpenLink {
            up: back,
            down: forth,
        }
    }
}
