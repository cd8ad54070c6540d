//! Taking a flow apart into link-disjoint paths.
ghost use Rattle.graph_flow.specs.Answers.{rows_of, AreInLinkOrder};
ghost use Rattle.graph_flow.specs.Flows.{IsFlow, unit_at, leaving};
ghost use Rattle.graph_flow.specs.Paths.{AreDisjointPaths};
ghost use Rattle.graph_flow.specs.Residual.{leaving_arc, cleared, TakesPath};
ghost use Rattle.std.specs.Prelude.{◌≡◌, ◌≢◌, ◌<◌, ◌^◌, length, All, IfOk, Some, vec_len};

use crate::arcs::{Arc, LinkRow2};
use crate::closure::{arcs_back, turned_round};
use crate::graph::Graph;
use crate::search::Search;
use crate::searched_arcs::Ways;
use arc_base::{Link, List, Memory};
use std::alloc::Global;

/// Takes a flow apart into paths from `s` to `t`, in rising order of their first links.
pub(crate) fn into_paths(
    alloc: Global,
    g: &Graph,
    units: &mut [Option<Arc>],
    s: u32,
    t: u32,
) -> Result<List<LinkRow2>, Memory>
    requires source { s < g.now.nodes }
    requires target { t < g.now.nodes }
    requires apart { s ≢ t }
    requires flow { IsFlow g.now.arcs s t (leaving units.old s) units.old }
    requires few { leaving units.old s < 2 ^ 32 }
    ensures paths { IfOk result (λ paths.
        AreDisjointPaths g.now.arcs s t (leaving units.old s) (rows_of paths)) }
    ensures order { IfOk result (λ paths. AreInLinkOrder (rows_of paths)) }
{
    let mut search = Search::make(alloc, g.nodes())?;
    let mut paths = List::make(alloc);
    for link in 0..units.len() {
        if let Some(first) = leaving_arc(&units[link], s) {
            let path = take_path(alloc, g, units, first, t, &mut search)?;
            paths.push(path)?;
        }
    }
    Ok(paths)
}

/// The arc of a unit that leaves a node.
fn leaving_arc(unit: &Option<Arc>, node: u32) -> Option<Arc>
    ensures { result ≡ leaving_arc node unit.now }
{
    match unit {
        Some(arc) if arc.tail == node => Some(*arc),
        _ => None,
    }
}

/// A path of units whose first arc is given. Its units are taken out of the flow.
fn take_path(
    alloc: Global,
    g: &Graph,
    units: &mut [Option<Arc>],
    first: Arc,
    t: u32,
    search: &mut Search,
) -> Result<LinkRow2, Memory>
    requires target { t < g.now.nodes }
    requires apart { first.tail ≢ t }
    requires flow { IsFlow g.now.arcs first.tail t (leaving units.old first.tail) units.old }
    requires first { unit_at units.old first.link.0 ≡ Some first }
    requires marks { vec_len search.old.marks ≡ g.now.nodes }
    requires queue { vec_len search.old.queue ≡ g.now.nodes }
    ensures path { IfOk result
        (λ path. TakesPath g.now.arcs first t units.old path.links units.new) }
    ensures marks { vec_len search.new.marks ≡ g.now.nodes }
    ensures queue { vec_len search.new.queue ≡ g.now.nodes }
{
    prove!(t < g.nodes());
    search.seek(g, Ways::Units(units, first), first.tail, t);
    let back = arcs_back(alloc, &search.marks, t)?;
    let path = turned_round(alloc, back)?;
    clear(units, path.links.slice());
    Ok(path)
}

/// Takes the units over these links away.
fn clear(units: &mut [Option<Arc>], links: &[Link])
    requires { All (λ link. link.0 < length units.old) links.now }
    ensures { units.new ≡ cleared units.old links.now }
{
    for link in links {
        units[link.0 as usize] = None;
    }
}
