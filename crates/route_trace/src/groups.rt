//! The usable arcs by the router at one end, in time linear in their number.
ghost use Rattle.route_trace.specs.Steps.{end_router, AreGroups};
ghost use Rattle.std.specs.Prelude.{◌<◌, [], All, IfOk};

use crate::steps::{End, Step};
use arc_base::Memory;
use std::alloc::Global;

/// The steps by the router at this end, each router's in the order of all.
pub(crate) fn grouped(
    alloc: Global,
    steps: &[Step],
    end: End,
    routers: u32,
) -> Result<Vec<Vec<Step>>, Memory>
    requires { All (λ s. (end_router end s).0 < routers) steps.now }
    ensures { IfOk result (λ groups. AreGroups end steps.now routers groups.items) }
{
    let mut groups = empty_groups(alloc, routers)?;
    for step in steps {
        let at = step.at(end).0 as usize;
        groups[at].push(*step)?;
    }
    Ok(groups)
}

fn empty_groups(alloc: Global, routers: u32) -> Result<Vec<Vec<Step>>, Memory>
    ensures { IfOk result (λ groups. AreGroups End.Tail [] routers groups.items) }
{
    let mut groups = Vec::with_capacity(alloc, routers as usize)?;
    for router in 0..routers {
        groups.push(Vec::new(alloc))?;
    }
    Ok(groups)
}
