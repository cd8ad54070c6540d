//! Which nodes paths reach from a node, and one path to each.
ghost use Rattle.arc_base.specs.declared.place.Link.{Link};
ghost use Rattle.graph_flow.specs.Marks.{AreSteps, depth_of, mark_at, way_to};
ghost use Rattle.graph_flow.specs.OpenLinks.{open_arcs};
ghost use Rattle.graph_flow.specs.Paths.{Leads, IsArcPath, links_of};
ghost use Rattle.std.specs.Prelude.{◌≡◌, ℕ, ◌<◌, length, IfOk, IsSome, IsTrue, Some, None, Option};
ghost use Rattle.std.specs.Prelude.{List, ◌↔◌, ◌^◌, slice_index_or, replicate, reverse, vec_len};

use crate::arcs::{Arc, LinkRow2, OpenLink};
use crate::graph::Graph;
use crate::search::{Mark, Search};
use crate::searched_arcs::Ways;
use arc_base::{List, Memory};
use std::alloc::Global;
use std::marker::Model;

/// The nodes that paths lead to from a node of a graph. It belongs to the graph that it was made
/// for. Contracts see, for each node, the links of a path to it, or none where it is not reached.
#[derive(Debug, Drop)]
pub struct Closure {
    search: Search,
}

impl Model for Closure {
    ghost use Rattle.arc_base.specs.declared.place.Link.{Link};
    ghost use Rattle.std.specs.Prelude.{List, Option};

    ghost Value = { List (Option (List Link)) };

    ghost use Rattle.graph_flow.specs.Kept.{IsKeptClosure};
    ghost use Rattle.graph_flow.specs.Marks.{paths_by};

    ghost view = { λ c. paths_by c.search.marks.items };

    ghost invariant = { IsKeptClosure };
}

impl Closure {
    /// Takes the room for the graph's nodes. No node is reached yet.
    pub fn make(alloc: Global, g: &Graph) -> Result<Closure, Memory>
        ensures { IfOk result (λ closure. closure ≡ replicate g.now.nodes None) }
    {
        Ok(Closure {
            search: Search::make(alloc, g.nodes())?,
        })
    }

    /// Reaches the nodes to which paths lead from a node, and no others. It takes no memory.
    pub fn spread(&mut self, g: &Graph, from: u32)
        requires from { from < g.now.nodes }
        requires graph { length self.old ≡ g.now.nodes }
        ensures room { length self.new ≡ length self.old }
        ensures reached { (node : ℕ) → node < g.now.nodes →
            IsSome (slice_index_or self.new node None) ↔ Leads g.now.arcs from node }
        ensures paths { (node : ℕ) (links : List Link) →
            slice_index_or self.new node None ≡ Some links → IsArcPath g.now.arcs from links node }
    {
        self.search.run(g, Ways::Room(&[]), from);
    }

    /// Reaches the nodes to which paths of open arcs lead from a node, and no others. It takes no
    /// memory.
    pub fn spread_open(&mut self, g: &Graph, table: &[OpenLink], from: u32)
        requires from { from < g.now.nodes }
        requires graph { length self.old ≡ g.now.nodes }
        ensures room { length self.new ≡ length self.old }
        ensures reached { (node : ℕ) → node < g.now.nodes →
            IsSome (slice_index_or self.new node None)
            ↔ Leads (open_arcs table.now g.now.arcs) from node }
        ensures paths { (node : ℕ) (links : List Link) →
            slice_index_or self.new node None ≡ Some links →
            IsArcPath (open_arcs table.now g.now.arcs) from links node }
    {
        self.search.run(g, Ways::Open(table), from);
    }

    /// Whether a path leads to the node.
    pub fn reached(&self, node: u32) -> bool
        requires { node < length self.now }
        ensures { IsTrue result ↔ IsSome (slice_index_or self.now node None) }
    {
        self.search.is_seen(node)
    }

    /// The path to a node that is reached. It passes no node twice.
    pub fn path(&self, alloc: Global, node: u32) -> Result<LinkRow2, Memory>
        requires node { node < length self.now }
        requires reached { IsSome (slice_index_or self.now node None) }
        ensures { IfOk result (λ path. slice_index_or self.now node None ≡ Some path.links) }
    {
        let back = arcs_back(alloc, &self.search.marks, node)?;
        turned_round(alloc, back)
    }
}

/// The arcs of the way by which a node was reached, the last one first.
pub(crate) fn arcs_back(alloc: Global, marks: &[Mark], node: u32) -> Result<Vec<Arc>, Memory>
    requires node { node < length marks.now }
    requires steps { AreSteps marks.now }
    requires shallow { depth_of (mark_at marks.now node) < 2 ^ 32 }
    ensures arcs { IfOk result (λ back. reverse back.items ≡ way_to marks.now node) }
    ensures few { IfOk result (λ back. vec_len back < 2 ^ 32) }
{
    let mut back = Vec::new(alloc);
    let mut at = node;
    while let Mark::After(arc, _) = marks[at as usize] {
        back.push(arc)?;
        at = arc.tail;
    }
    Ok(back)
}

/// The links of these arcs in the other order.
pub(crate) fn turned_round(alloc: Global, mut back: Vec<Arc>) -> Result<LinkRow2, Memory>
    requires { vec_len back < 2 ^ 32 }
    ensures { IfOk result (λ path. path.links ≡ links_of (reverse back.items)) }
{
    let mut links = List::make(alloc);
    while let Some(arc) = back.pop() {
        links.push(arc.link)?;
    }
    Ok(LinkRow2 { links })
}
