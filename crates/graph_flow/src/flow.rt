//! Flows that grow unit by unit, each along an augmenting path: over links that have room for it. A
//! unit more costs one breadth-first search.
ghost use Rattle.graph_flow.specs.Flows.{IsFlow, IsGreatest, IsMadeFor, EndsAt, leaving, flagged};
ghost use Rattle.graph_flow.specs.Marks.{AreSteps, mark_at, way_to};
ghost use Rattle.graph_flow.specs.Residual.{sent};
ghost use Rattle.graph_flow.specs.declared.arcs.Arc.{Arc};
ghost use Rattle.std.specs.Prelude.{◌≡◌, ◌≢◌, ℕ, ◌<◌, ◌+◌, length, IfOk, IsTrue, IsFalse, ◌↔◌};

use crate::arcs::Arc;
use crate::graph::Graph;
use crate::residual::turn;
use crate::search::{Mark, Search};
use crate::searched_arcs::Ways;
use arc_base::Memory;
use std::alloc::Global;
use std::marker::Model;

/// A flow of units over the links of a graph, each of which carries at most one. It belongs to the
/// graph that it was made for, and to the two nodes that its first `grow` names.
#[derive(Debug, Drop)]
pub struct Flow {
    units: Vec<Option<Arc>>,
    search: Search,
}

impl Model for Flow {
    ghost use Rattle.graph_flow.specs.Flows.{FlowState};
    ghost use Rattle.std.specs.Prelude.{◌≡◌, map, length};

    ghost Value = { FlowState };

    ghost use Rattle.graph_flow.specs.Marks.{is_seen};

    ghost view = { λ f.
        record { units = f.units.items; reached = map is_seen f.search.marks.items } };

    ghost invariant = { λ f. length f.search.queue.items ≡ length f.search.marks.items };
}

impl Flow {
    /// Takes the room for the graph's nodes and links. No link carries a unit yet.
    pub fn make(alloc: Global, g: &Graph) -> Result<Flow, Memory>
        ensures room { IfOk result (IsMadeFor g.now) }
        ensures none { IfOk result (λ flow. (node : ℕ) → leaving flow.units node ≡ 0) }
        ensures flow { IfOk result (λ flow. (s t : ℕ) → IsFlow g.now.arcs s t 0 flow.units) }
    {
        Ok(Flow {
            units: vec![in alloc; None; g.links()]?,
            search: Search::make(alloc, g.nodes())?,
        })
    }

    /// Sends one more unit from `s` to `t`, or changes no unit where no flow has more. It takes no
    /// memory, and looks no further than `t`.
    pub fn grow(&mut self, g: &Graph, s: u32, t: u32) -> bool
        requires source { s < g.now.nodes }
        requires target { t < g.now.nodes }
        requires apart { s ≢ t }
        requires room { IsMadeFor g.now self.old }
        requires flow { IsFlow g.now.arcs s t (leaving self.old.units s) self.old.units }
        ensures greatest { IsFalse result ↔ IsGreatest g.now.arcs s t (leaving self.old.units s) }
        ensures unchanged { IsFalse result → self.new.units ≡ self.old.units }
        ensures raised { IsTrue result → leaving self.new.units s ≡ leaving self.old.units s + 1 }
        ensures flow { IsFlow g.now.arcs s t (leaving self.new.units s) self.new.units }
        ensures side { IsFalse result →
            EndsAt g.now.arcs s t (leaving self.new.units s) self.new.units self.new.reached }
        ensures room { IsMadeFor g.now self.new }
    {
        prove!(t < g.nodes());
        self.search.seek(g, Ways::Room(&self.units), s, t);
        if !self.search.is_seen(t) {
            return false;
        }
        send(&mut self.units, &self.search.marks, t);
        true
    }

    /// Whether the last search for room reached the node. After a `grow` that answered false these
    /// are the nodes of the least source side.
    pub fn side(&self, node: u32) -> bool
        requires { node < length self.now.reached }
        ensures { result ≡ flagged self.now.reached node }
    {
        self.search.is_seen(node)
    }

    /// The arcs that carry units, by link.
    pub(crate) fn into_units(self) -> Vec<Option<Arc>>
        ensures { result.items ≡ self.units }
    {
        let Flow { units, search } = self;
        drop(search);
        units
    }
}

/// Sends one more unit over the arcs by which a node was reached, from the last one back to the
/// first.
pub(crate) fn send(units: &mut [Option<Arc>], marks: &[Mark], node: u32)
    requires node { node < length marks.now }
    requires steps { AreSteps marks.now }
    requires links { (at : ℕ) (arc : Arc) (depth : ℕ) →
        mark_at marks.now at ≡ Mark.After arc depth → arc.link.0 < length units.old }
    ensures { units.new ≡ sent units.old (way_to marks.now node) }
{
    let mut at = node;
    while let Mark::After(arc, _) = marks[at as usize] {
        turn(units, arc);
        at = arc.tail;
    }
}
