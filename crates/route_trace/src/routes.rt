//! The stable distances of a network to a host network.
ghost use Rattle.net_model.specs.Validity.{IsValid};
ghost use Rattle.route_trace.specs.Routes.{flagged, IsHostNetwork, Owns, AreDistances, TellReach};
ghost use Rattle.std.specs.Prelude.{◌≡◌, ◌↔◌, Some, length, IfOk, IfSome, IfNone, IsTrue};

use crate::front::settle;
use crate::steps::steps;
use arc_base::{List, Memory, Prefix, Router};
use net_model::{FaceRow, Network};
use std::alloc::Global;

/// The stable distances to a host network, where the links whose flag is set have failed: for each
/// router the cost of its shortest paths to the owner, or none. There is one flag for each link.
pub fn distances(
    alloc: Global,
    net: &Network,
    down: &[bool],
    to: Prefix,
) -> Result<List<Option<u64>>, Memory>
    requires valid { IsValid net.now }
    requires flags { length down.now ≡ length net.now.links }
    requires host { IsHostNetwork net.now to }
    ensures stable { IfOk result (AreDistances net.now to (flagged down.now)) }
    ensures reach { IfOk result (TellReach net.now to (flagged down.now)) }
{
    let Some(owner) = owner(net, to) else {
        unreachable!()
    };
    let steps = steps(alloc, net, down, to)?;
    List::of(settle(alloc, &steps, net.routers.len(), owner)?)
}

/// The router that owns the host network, if it is one.
fn owner(net: &Network, to: Prefix) -> Option<Router>
    ensures found { IfSome result (λ owner. Owns net.now to owner.0) }
    ensures none { IfNone result (IsHostNetwork net.now to → ⊥) }
{
    for face in net.faces.slice() {
        if has_host(face, to) {
            return Some(face.router);
        }
    }
    None
}

/// Whether this is the host network of the interface.
fn has_host(face: &FaceRow, to: Prefix) -> bool
    ensures { IsTrue result ↔ (face.now.host ≡ Some to) }
{
    match face.host {
        Some(host) => host.is(&to),
        None => false,
    }
}
