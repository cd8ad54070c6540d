//! The links without which no path leads from one node to another.
ghost use Rattle.arc_base.specs.declared.place.Link.{Link};
ghost use Rattle.graph_flow.specs.Flows.{unit_at};
ghost use Rattle.graph_flow.specs.Marks.{is_seen, mark_at, IsSpread};
ghost use Rattle.graph_flow.specs.Needed.{IsNeeded, IsNeededAnswer};
ghost use Rattle.graph_flow.specs.Paths.{IsGraph};
ghost use Rattle.graph_flow.specs.declared.arcs.Arc.{Arc};
ghost use Rattle.std.specs.Prelude.{◌≡◌, ◌↔◌, ℕ, ◌<◌, IfOk, OnOk, IsTrue, IsSome, Some, None};
ghost use Rattle.std.specs.Prelude.{AllPairs, Contains, vec_len, ◌++◌, ◌∷◌, [], ◌^◌, All, length};

use crate::arcs::Arc;
use crate::closure::arcs_back;
use crate::flow::send;
use crate::graph::Graph;
use crate::search::Search;
use crate::searched_arcs::Ways;
use arc_base::{Link, List, Memory};
use std::alloc::Global;

/// The links without which no path leads from `s` to `t`, in rising order, or none where no path
/// leads there. The time is linear in nodes, arcs and the greatest number of a link.
pub fn needed_links(alloc: Global, g: &Graph, s: u32, t: u32) -> Result<Option<List<Link>>, Memory>
    requires source { s < g.now.nodes }
    requires target { t < g.now.nodes }
    ensures { IfOk result (IsNeededAnswer g.now.arcs s t) }
{
    let mut search = Search::make(alloc, g.nodes())?;
    search.run(g, Ways::Room(&[]), s);
    if !search.is_seen(t) {
        return Ok(None);
    }
    let needed = needed_units(alloc, g, search, s, t)?;
    Ok(Some(links_of(alloc, &needed)?))
}

/// At the place of each needed link an arc of it.
///
/// A unit is sent over the path that a search has found, and then the path is walked: a node of it
/// that the residual network does not lead to is behind a needed link. That link's unit is taken
/// away there, so that the search goes on behind it, and each node is looked at once.
fn needed_units(
    alloc: Global,
    g: &Graph,
    search: Search,
    s: u32,
    t: u32,
) -> Result<Vec<Option<Arc>>, Memory>
    requires graph { IsGraph g.now }
    requires few { g.now.nodes < 2 ^ 32 }
    requires source { s < g.now.nodes }
    requires target { t < g.now.nodes }
    requires marks { vec_len search.marks ≡ g.now.nodes }
    requires queue { vec_len search.queue ≡ g.now.nodes }
    requires spread { IsSpread g.now.arcs s search.marks.items }
    requires seen { IsTrue (is_seen (mark_at search.marks.items t)) }
    ensures exact { IfOk result (λ needed. (link : Link) →
        IsSome (unit_at needed.items link.0) ↔ IsNeeded g.now.arcs s t link) }
    ensures of_link { IfOk result (λ needed. (link : ℕ) (arc : Arc) →
        unit_at needed.items link ≡ Some arc → arc.link.0 ≡ link) }
{
    let mut search = search;
    let mut back = arcs_back(alloc, &search.marks, t)?;
    let mut carried = no_units(alloc, g)?;
    let mut needed = no_units(alloc, g)?;
    send(&mut carried, &search.marks, t);
    let mut count = search.run(g, Ways::Room(&carried), s);
    while let Some(arc) = back.pop() {
        if !search.is_seen(arc.head) {
            count = search.widen(g, &mut carried, s, arc, count);
            needed[arc.link.0 as usize] = Some(arc);
        }
    }
    Ok(needed)
}

/// Room for a unit at each link of the graph, and no unit yet.
fn no_units(alloc: Global, g: &Graph) -> Result<Vec<Option<Arc>>, Memory>
    ensures none { IfOk result (λ units. (link : ℕ) → unit_at units.items link ≡ None) }
    ensures room { IfOk result (λ units.
        All (λ arc. arc.link.0 < length units.items) g.now.arcs) }
{
    let units = vec![in alloc; None; g.links()]?;
    Ok(units)
}

/// The links of arcs that are at the places of their links.
fn links_of(alloc: Global, units: &[Option<Arc>]) -> Result<List<Link>, Memory>
    requires { (link : ℕ) (arc : Arc) → unit_at units.now link ≡ Some arc → arc.link.0 ≡ link }
    ensures rising { IfOk result (AllPairs (λ k l. k.0 < l.0)) }
    ensures exact { IfOk result (λ links. (link : Link) →
        Contains links link ↔ IsSome (unit_at units.now link.0)) }
{
    let mut links = List::make(alloc);
    for unit in units {
        if let Some(arc) = unit {
            add(&mut links, arc.link)?;
        }
    }
    Ok(links)
}

/// Adds a link at the end.
fn add(links: &mut List<Link>, link: Link) -> Result<(), Memory>
    ensures { OnOk result (links.new ≡ links.old ++ link ∷ []) }
{
    if links.len() == u32::MAX {
        return Err(Memory);
    }
    links.push(link)
}
