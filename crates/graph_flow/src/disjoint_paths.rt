//! Link-disjoint paths between two nodes, or the cut that rules them out (Menger's theorem): a flow
//! grows by one augmenting path for each of them.
ghost use Rattle.graph_flow.specs.Answers.{IfPaths, IfCut, AreInLinkOrder};
ghost use Rattle.graph_flow.specs.Flows.{IsFlow, IsMadeFor, EndsAt, leaving, flagged, links_out};
ghost use Rattle.graph_flow.specs.Flows.{out_link, unit_at, AreWithin};
ghost use Rattle.graph_flow.specs.Laws.{HavePaths};
ghost use Rattle.graph_flow.specs.Paths.{AreDisjointPaths};
ghost use Rattle.graph_flow.specs.Sides.{IsLeastSide};
ghost use Rattle.graph_flow.specs.declared.arcs.Arc.{Arc};
ghost use Rattle.std.specs.Prelude.{◌≡◌, ◌≢◌, ℕ, ◌≤◌, ◌<◌, ◌-◌, ◌^◌, length, IfOk, IsTrue, IsFalse};
ghost use Rattle.std.specs.Prelude.{Some};

use crate::answer::FlowAnswer;
use crate::arcs::Arc;
use crate::flow::Flow;
use crate::graph::Graph;
use crate::units::into_paths;
use arc_base::{Link, List, Memory};
use std::alloc::Global;

/// `want` link-disjoint paths from `s` to `t`, or else the fewer links that leave the least source
/// side.
pub fn disjoint(alloc: Global, g: &Graph, s: u32, t: u32, want: u32) -> Result<FlowAnswer, Memory>
    requires source { s < g.now.nodes }
    requires target { t < g.now.nodes }
    requires apart { s ≢ t }
    requires some { 1 ≤ want }
    ensures paths { IfOk result (λ answer. IfPaths answer (AreDisjointPaths g.now.arcs s t want)) }
    ensures order { IfOk result (λ answer. IfPaths answer AreInLinkOrder) }
    ensures cut { IfOk result (λ answer.
        IfCut answer (λ links side. IsLeastSide g.now.arcs s t (flagged side) links)) }
    ensures fewer { IfOk result (λ answer. IfCut answer (λ links side. length links < want)) }
    ensures flags { IfOk result (λ answer. IfCut answer (λ links side. length side ≡ g.now.nodes)) }
    ensures only_then { IfOk result (λ answer.
        IfCut answer (λ links side. HavePaths g.now.arcs s t want → ⊥)) }
{
    let mut flow = Flow::make(alloc, g)?;
    if fill(&mut flow, g, s, t, want) {
        let mut units = flow.into_units();
        return Ok(FlowAnswer::Paths(into_paths(alloc, g, &mut units, s, t)?));
    }
    let side = flags(alloc, &flow, g.nodes())?;
    let links = links_out(alloc, &flow.into_units(), side.slice())?;
    Ok(FlowAnswer::Cut(links, side))
}

/// Grows a flow until it has `want` units, and answers whether it has.
fn fill(flow: &mut Flow, g: &Graph, s: u32, t: u32, want: u32) -> bool
    requires source { s < g.now.nodes }
    requires target { t < g.now.nodes }
    requires apart { s ≢ t }
    requires room { IsMadeFor g.now flow.old }
    requires flow { IsFlow g.now.arcs s t 0 flow.old.units }
    requires none { leaving flow.old.units s ≡ 0 }
    ensures flow { IsFlow g.now.arcs s t (leaving flow.new.units s) flow.new.units }
    ensures room { IsMadeFor g.now flow.new }
    ensures full { IsTrue result → leaving flow.new.units s ≡ want }
    ensures fewer { IsFalse result → leaving flow.new.units s < want }
    ensures side { IsFalse result →
        EndsAt g.now.arcs s t (leaving flow.new.units s) flow.new.units flow.new.reached }
{
    for _grown in 0..want {
        if !flow.grow(g, s, t) {
            return false;
        }
    }
    true
}

/// For each node whether it is on the side.
fn flags(alloc: Global, flow: &Flow, nodes: u32) -> Result<List<bool>, Memory>
    requires { nodes ≡ length flow.now.reached }
    ensures { IfOk result (λ flags. flags ≡ flow.now.reached) }
{
    let mut flags = List::make(alloc);
    for node in 0..nodes {
        flags.push(flow.side(node))?;
    }
    Ok(flags)
}

/// The links over which units lead out of the side.
fn links_out(alloc: Global, units: &[Option<Arc>], side: &[bool]) -> Result<List<Link>, Memory>
    requires ends { (link : ℕ) (arc : Arc) → unit_at units.now link ≡ Some arc →
        AreWithin side.now arc }
    requires few { length (links_out units.now (flagged side.now)) < 2 ^ 32 - 1 }
    ensures { IfOk result (λ links. links ≡ links_out units.now (flagged side.now)) }
{
    let mut links = List::make(alloc);
    for unit in units {
        if let Some(link) = out_link(unit, side) {
            links.push(link)?;
        }
    }
    Ok(links)
}

/// The link of a unit that leads out of the side.
fn out_link(unit: &Option<Arc>, side: &[bool]) -> Option<Link>
    requires { (arc : Arc) → unit.now ≡ Some arc → AreWithin side.now arc }
    ensures { result ≡ out_link (flagged side.now) unit.now }
{
    match unit {
        Some(arc) if side[arc.tail as usize] && !side[arc.head as usize] => Some(arc.link),
        _ => None,
    }
}
