//! Directed graphs whose arcs belong to links, as the rest of the crate walks them.
ghost use Rattle.graph_flow.specs.Paths.{Joins, MayShare, IsGraph, Digraph};
ghost use Rattle.graph_flow.specs.Residual.{touching, with_arc};
ghost use Rattle.std.specs.Prelude.{◌≡◌, ◌≢◌, ◌<◌, ◌^◌, [], ◌∷◌, ◌++◌, length, IfOk, OnOk, OnErr};
ghost use Rattle.std.specs.Prelude.{All};

use crate::arcs::Arc;
use crate::row::Row;
use arc_base::Memory;
use std::alloc::Global;
use std::marker::Model;

/// A directed graph whose arcs belong to links. Contracts see how many nodes it has and the list of
/// its arcs.
#[derive(Debug, Drop)]
pub struct Graph {
    arcs: Vec<Arc>,
    rows: Vec<Row>,
    links: usize,
}

impl Model for Graph {
    ghost use Rattle.graph_flow.specs.Paths.{Digraph};

    ghost Value = { Digraph };

    ghost use Rattle.graph_flow.specs.Adjacency.{IsKept, digraph_of};

    ghost view = { digraph_of };

    ghost invariant = { IsKept };
}

impl Graph {
    /// The graph of `nodes` nodes, numbered from 0, without arcs.
    pub fn make(alloc: Global, nodes: u32) -> Result<Graph, Memory>
        ensures { IfOk result (λ g. g ≡ record { nodes = nodes; arcs = [] }) }
    {
        let mut rows = Vec::with_capacity(alloc, nodes as usize)?;
        for _node in 0..nodes {
            rows.push(Row::make(alloc))?;
        }
        Ok(Graph {
            arcs: Vec::new(alloc),
            rows,
            links: 0,
        })
    }

    /// Adds an arc. A link may have one arc in each direction.
    pub fn arc(&mut self, arc: Arc) -> Result<(), Memory>
        requires joins { Joins self.old.nodes arc }
        requires share { All (λ other. MayShare other arc) self.old.arcs }
        ensures ok { OnOk result (self.new ≡ record self.old { arcs = self.old.arcs ++ arc ∷ [] }) }
        ensures err { OnErr result (self.new ≡ self.old) }
    {
        self.arcs.reserve(1)?;
        add(&mut self.rows, arc)?;
        self.arcs.push(arc)?;
        self.links = self.links.max(arc.link.0 as usize + 1);
        Ok(())
    }

    /// The number of nodes.
    pub fn nodes(&self) -> u32
        ensures number { result ≡ self.now.nodes }
        ensures graph { IsGraph self.now }
    {
        self.rows.len() as u32
    }

    /// A number above that of each link.
    pub(crate) fn links(&self) -> usize
        ensures { All (λ arc. arc.link.0 < result) self.now.arcs }
    {
        self.links
    }

    /// The arcs that begin or end at a node.
    pub(crate) fn touching(&self, node: u32) -> &[Arc]
        requires { node < self.now.nodes }
        ensures arcs { result.now ≡ touching self.now.arcs node }
        ensures graph { IsGraph self.now }
        ensures few { self.now.nodes < 2 ^ 32 }
    {
        self.rows[node as usize].slice()
    }
}

/// Adds an arc to the rows of its two nodes, or to none of them.
fn add(rows: &mut [Row], arc: Arc) -> Result<(), Memory>
    requires tail { arc.tail < length rows.old }
    requires head { arc.head < length rows.old }
    requires apart { arc.tail ≢ arc.head }
    ensures ok { OnOk result (rows.new ≡ with_arc rows.old arc) }
    ensures err { OnErr result (rows.new ≡ rows.old) }
{
    let tail = arc.tail as usize;
    let head = arc.head as usize;
    rows[tail].push(arc)?;
    match rows[head].push(arc) {
        Ok(()) => Ok(()),
        Err(error) => {
            rows[tail].pop();
            Err(error)
        }
    }
}
