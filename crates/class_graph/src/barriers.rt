//! What keeps packets of a list of classes out, whatever fails: a link that denies them, or where
//! they enter and leave.
ghost use Rattle.class_graph.specs.Barriers.{IsFirstBarrier, IsFirstBetween};
ghost use Rattle.class_graph.specs.Classes.{AreAllUniform};
ghost use Rattle.class_graph.specs.Hosts.{IsHostPair, HasHostPair};
ghost use Rattle.class_graph.specs.Listed.{AreListed};
ghost use Rattle.net_model.specs.Forwarding.{Ends};
ghost use Rattle.std.specs.Prelude.{IfOk};

use crate::first_denials::{Denial, first_denial};
use crate::hosts::HostPair;
use arc_base::{List, Memory};
use net_model::{Class, Network};
use std::alloc::Global;

/// What keeps packets of classes out.
#[derive(Clone, Copy, Debug)]
pub enum Barrier {
    /// A link denies a class.
    Link(Denial),
    /// A packet of the class does not enter or does not leave.
    Ends(Class),
}

/// The first link that denies some of the classes, where packets enter and leave at two routers; or
/// else the first class with a packet that does not enter or does not leave. The table is that of
/// `listed_links`, which is the same for all policies.
pub fn first_barrier(
    alloc: Global,
    net: &Network,
    pair: &HostPair,
    classes: &List<Class>,
    listed: &List<bool>,
) -> Result<Option<Barrier>, Memory>
    requires pair { HasHostPair net.now pair.now }
    requires uniform { AreAllUniform net.now classes.now }
    requires listed { AreListed net.now listed.now }
    ensures { IfOk result (λ found. (ends : Ends) → IsHostPair net.now ends pair.now →
        IsFirstBarrier net.now ends classes.now found) }
{
    let denial = denial_between(alloc, net, pair, classes, listed)?;
    if let Some(denial) = denial {
        return Ok(Some(Barrier::Link(denial)));
    }
    match pair.first_kept_out(net, classes) {
        Some(class) => Ok(Some(Barrier::Ends(class))),
        None => Ok(None),
    }
}

/// The first denial, if packets enter and leave at two routers.
fn denial_between(
    alloc: Global,
    net: &Network,
    pair: &HostPair,
    classes: &List<Class>,
    listed: &List<bool>,
) -> Result<Option<Denial>, Memory>
    requires pair { HasHostPair net.now pair.now }
    requires uniform { AreAllUniform net.now classes.now }
    requires listed { AreListed net.now listed.now }
    ensures { IfOk result (λ found. (ends : Ends) → IsHostPair net.now ends pair.now →
        IsFirstBetween net.now ends classes.now found) }
{
    if pair.source.router.0 == pair.target.router.0 {
        Ok(None)
    } else {
        first_denial(alloc, net, pair, classes, listed)
    }
}
