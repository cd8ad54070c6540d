//! The arcs at one node, kept without an allocation where they are few.
ghost use Rattle.graph_flow.specs.declared.arcs.Arc.{Arc};
ghost use Rattle.std.specs.Prelude.{◌≡◌, ◌-◌, ◌<◌, [], ◌∷◌, ◌++◌, OnOk, OnErr, List as Items};

use crate::arcs::Arc;
use arc_base::Memory;
use smallvec::SmallVec;
use std::alloc::Global;
use std::marker::Model;

/// The arcs that begin or end at one node. Most nodes have few, which need no allocation of their
/// own.
#[derive(Debug, Drop)]
pub(crate) struct Row {
    arcs: SmallVec<Arc, 8>,
}

impl Model for Row {
    ghost use Rattle.graph_flow.specs.declared.arcs.Arc.{Arc};
    ghost use Rattle.std.specs.Prelude.{List};

    ghost Value = { List Arc };

    ghost view = { λ row. row.arcs.items };
}

impl Row {
    pub(crate) fn make(alloc: Global) -> Row
        ensures { result ≡ [] }
    {
        Row {
            arcs: SmallVec::new(alloc),
        }
    }

    pub(crate) fn slice(&self) -> &[Arc]
        ensures { result.now ≡ self.now }
    {
        self.arcs.as_slice()
    }

    pub(crate) fn push(&mut self, arc: Arc) -> Result<(), Memory>
        ensures ok { OnOk result (self.new ≡ self.old ++ arc ∷ []) }
        ensures err { OnErr result (self.new ≡ self.old) }
    {
        match self.arcs.push(arc) {
            Ok(()) => Ok(()),
            Err(_) => Err(Memory),
        }
    }

    pub(crate) fn pop(&mut self)
        ensures { (xs : Items Arc) (x : Arc) → self.old ≡ xs ++ x ∷ [] → self.new ≡ xs }
    {
        let _ = self.arcs.pop();
    }
}
