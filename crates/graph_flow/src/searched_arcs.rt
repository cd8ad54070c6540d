//! The arcs that a search goes over, by those of a graph.
ghost use Rattle.graph_flow.specs.OpenLinks.{is_open_way, open_of};
ghost use Rattle.graph_flow.specs.SearchedArcs.{gives};
ghost use Rattle.std.specs.Prelude.{◌≡◌};

use crate::arcs::{Arc, OpenLink};
use crate::residual::{residual_of, unit_of};

/// Which arcs a search goes over.
#[derive(Clone, Copy)]
pub(crate) enum Ways<'a> {
    /// Those that have room for one more unit beside the units that links carry.
    Room(&'a [Option<Arc>]),
    /// Those that are open.
    Open(&'a [OpenLink]),
    /// Those that carry units over which a path of units with this first arc may go.
    Units(&'a [Option<Arc>], Arc),
}

impl Ways<'_> {
    /// The arc over which a search goes by way of an arc of the graph.
    pub(crate) fn over(self, arc: &Arc) -> Option<Arc>
        ensures { result ≡ gives self.entry arc.now }
    {
        match self {
            Ways::Room(carried) => residual_of(carried, arc),
            Ways::Open(table) => open_of(table, arc),
            Ways::Units(units, first) => unit_of(units, &first, arc),
        }
    }
}

impl OpenLink {
    /// Whether the link's arc from the one node to the other is open.
    fn leads(self, tail: u32, head: u32) -> bool
        ensures { result ≡ is_open_way self tail head }
    {
        if tail < head { self.up } else { self.down }
    }
}

/// The arc, if it is open. An arc whose link has no row is not.
fn open_of(table: &[OpenLink], arc: &Arc) -> Option<Arc>
    ensures { result ≡ open_of table.now arc.now }
{
    let row = table.get(arc.link.0 as usize)?;
    if row.leads(arc.tail, arc.head) {
        Some(*arc)
    } else {
        None
    }
}
