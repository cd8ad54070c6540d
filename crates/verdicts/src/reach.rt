//! Verdicts on reach policies: link-disjoint paths, one more than links may fail, or a smaller cut.
ghost use Rattle.class_graph.specs.Barriers.{AreUndenied};
ghost use Rattle.class_graph.specs.Classes.{AreAllUniform};
ghost use Rattle.class_graph.specs.Graphs.{IsGraphOf, IsAnyArc};
ghost use Rattle.class_graph.specs.Hosts.{IsHostPair, HasHostPair};
ghost use Rattle.class_graph.specs.Listed.{AreListed};
ghost use Rattle.class_graph.specs.Passing.{AllPass};
ghost use Rattle.net_model.specs.Forwarding.{Ends};
ghost use Rattle.net_model.specs.Validity.{IsValid};
ghost use Rattle.net_model.specs.declared.policies.Class.{Class as AnyClass};
ghost use Rattle.std.specs.Prelude.{◌≡◌, ◌≢◌, ◌≤◌, List as Items, length, IfOk};
ghost use Rattle.traffic_classes.specs.Parts.{MakeUp};
ghost use Rattle.verdicts.specs.Judged.{IsReachVerdict};
ghost use Rattle.verdicts.specs.Reaching.{IsPathsOrCut, paths_of};

use arc_base::limits::FAILURE_LIMIT;
use arc_base::{Link, List, Memory};
use class_graph::{Barrier, HostPair, first_barrier};
use graph_flow::{FlowAnswer, Graph, LinkRow2, disjoint};
use net_model::{Class, LinkPath, Network, Verdict};
use std::alloc::Global;

/// The verdict on a reach policy with these classes, where the graph is that of all routed arcs,
/// and the table that of the links with packet lists.
pub(crate) fn judge_reach(
    alloc: Global,
    net: &Network,
    pair: &HostPair,
    graph: &Graph,
    listed: &List<bool>,
    classes: &List<Class>,
    failures: u32,
) -> Result<Verdict, Memory>
    requires valid { IsValid net.now }
    requires pair { HasHostPair net.now pair.now }
    requires graph { IsGraphOf net.now pair.now.to IsAnyArc graph.now }
    requires listed { AreListed net.now listed.now }
    requires uniform { AreAllUniform net.now classes.now }
    requires few { failures ≤ FAILURE_LIMIT }
    ensures { IfOk result (λ v. (ends : Ends) (whole : AnyClass) →
        IsHostPair net.now ends pair.now → MakeUp net.now whole classes.now →
        IsReachVerdict net.now ends failures whole classes.now v) }
{
    let found = first_barrier(alloc, net, pair, classes, listed)?;
    let Some(barrier) = found else {
        return judge_open(alloc, net, pair, failures, graph);
    };
    match barrier {
        Barrier::Link(denial) => Ok(Verdict::Refused(denial.class.first_packet(), denial.link)),
        Barrier::Ends(class) => Ok(Verdict::Denied(class)),
    }
}

/// The verdict where no class is denied or kept out.
fn judge_open(
    alloc: Global,
    net: &Network,
    pair: &HostPair,
    failures: u32,
    graph: &Graph,
) -> Result<Verdict, Memory>
    requires valid { IsValid net.now }
    requires pair { HasHostPair net.now pair.now }
    requires few { failures ≤ FAILURE_LIMIT }
    requires graph { IsGraphOf net.now pair.now.to IsAnyArc graph.now }
    ensures { IfOk result (λ v. (ends : Ends) (whole : AnyClass) (parts : Items AnyClass) →
        IsHostPair net.now ends pair.now → MakeUp net.now whole parts →
        AreUndenied net.now ends parts → AllPass net.now ends parts (length parts) →
        IsReachVerdict net.now ends failures whole parts v) }
{
    if pair.source.router.0 == pair.target.router.0 {
        Ok(Verdict::Paths(List::make(alloc)))
    } else {
        paths_or_cut(alloc, net, pair, failures, graph)
    }
}

/// Paths of which no two share a link, one more than links may fail, or the links that leave the
/// least side.
fn paths_or_cut(
    alloc: Global,
    net: &Network,
    pair: &HostPair,
    failures: u32,
    graph: &Graph,
) -> Result<Verdict, Memory>
    requires valid { IsValid net.now }
    requires pair { HasHostPair net.now pair.now }
    requires few { failures ≤ FAILURE_LIMIT }
    requires apart { pair.now.source.router.0 ≢ pair.now.target.router.0 }
    requires graph { IsGraphOf net.now pair.now.to IsAnyArc graph.now }
    ensures { IfOk result (λ v. (ends : Ends) → IsHostPair net.now ends pair.now →
        IsPathsOrCut net.now ends failures v) }
{
    let source = pair.source.router.0;
    let target = pair.target.router.0;
    let answer = disjoint(alloc, graph, source, target, failures + 1)?;
    match answer {
        FlowAnswer::Paths(rows) => {
            let paths = paths_of(alloc, &rows)?;
            Ok(Verdict::Paths(paths))
        }
        FlowAnswer::Cut(links, side) => Ok(Verdict::Cut(links, side)),
    }
}

/// The paths with these links.
fn paths_of(alloc: Global, rows: &List<LinkRow2>) -> Result<List<LinkPath>, Memory>
    ensures { IfOk result (λ paths. paths ≡ paths_of rows.now) }
{
    let mut paths = List::make(alloc);
    for row in rows.slice() {
        let links = copy_of(alloc, &row.links)?;
        paths.push(LinkPath { links })?;
    }
    Ok(paths)
}

/// A copy of the links.
fn copy_of(alloc: Global, links: &List<Link>) -> Result<List<Link>, Memory>
    ensures { IfOk result (λ copy. copy ≡ links.now) }
{
    List::of(Vec::from_slice(alloc, links.slice())?)
}
