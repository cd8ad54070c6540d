//! The routers that the packets of a class get to.
ghost use Rattle.class_graph.specs.Parts.{part_of};
ghost use Rattle.std.specs.Prelude.{◌≡◌, ◌<◌, length, map, is_some, IfOk};
ghost use Rattle.verdicts.specs.Sides.{IsReached};

use arc_base::{List, Memory};
use class_graph::ClassPart;
use graph_flow::{Closure, Graph};
use std::alloc::Global;

/// The routers that the packets of a class get to, if they enter.
pub(crate) fn reached_from_source(
    alloc: Global,
    graph: &Graph,
    part: &ClassPart,
) -> Result<Closure, Memory>
    requires { part.now.source.0 < graph.now.nodes }
    ensures { IfOk result (IsReached (part_of graph.now part.now)) }
{
    let mut closure = Closure::make(alloc, graph)?;
    if part.enters {
        closure.spread_open(graph, part.table.slice(), part.source.0);
    }
    Ok(closure)
}

/// For each router, whether it is reached.
pub(crate) fn side_of(alloc: Global, closure: &Closure, routers: u32) -> Result<List<bool>, Memory>
    requires { length closure.now ≡ routers }
    ensures { IfOk result (λ side. side ≡ map is_some closure.now) }
{
    let mut side = List::make(alloc);
    for router in 0..routers {
        side.push(closure.reached(router))?;
    }
    Ok(side)
}
