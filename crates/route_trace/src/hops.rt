//! Next hops: the links over which a router attains its distance. Each call looks at each arc once.
ghost use Rattle.net_model.specs.Validity.{IsValid};
ghost use Rattle.route_trace.specs.Routes.{flagged, distance_map, IsHostNetwork, AreDistances};
ghost use Rattle.route_trace.specs.Routes.{AreNextHops, Owns};
ghost use Rattle.route_trace.specs.Steps.{is_sum, is_hop, hops_of};
ghost use Rattle.std.specs.Prelude.{◌≡◌, ◌<◌, [], None, length, IfOk};

use crate::steps::{Step, steps};
use arc_base::{Link, List, Memory, Prefix, Router};
use net_model::Network;
use std::alloc::Global;

/// The links over which a router sends packets for a host network, rising. `dist` has the stable
/// distances for the same flags and host network.
pub fn next_hops(
    alloc: Global,
    net: &Network,
    down: &[bool],
    dist: &List<Option<u64>>,
    to: Prefix,
    at: Router,
) -> Result<List<Link>, Memory>
    requires valid { IsValid net.now }
    requires flags { length down.now ≡ length net.now.links }
    requires host { IsHostNetwork net.now to }
    requires stable { AreDistances net.now to (flagged down.now) dist.now }
    ensures exact { IfOk result
        (AreNextHops net.now to (flagged down.now) (distance_map dist.now) at.0) }
    ensures owner { Owns net.now to at.0 → IfOk result (λ links. links ≡ []) }
    ensures none { distance_map dist.now at.0 ≡ None → IfOk result (λ links. links ≡ []) }
{
    let steps = steps(alloc, net, down, to)?;
    hops(alloc, &steps, dist.slice(), at)
}

/// The links of the steps that lead from the router and attain its distance.
pub(crate) fn hops(
    alloc: Global,
    steps: &[Step],
    distances: &[Option<u64>],
    at: Router,
) -> Result<List<Link>, Memory>
    ensures { IfOk result (λ links. links ≡ hops_of steps.now (distance_map distances.now) at.0) }
{
    let mut links = Vec::new(alloc);
    for step in steps {
        if is_hop(step, distances, at) {
            links.push(step.link)?;
        }
    }
    List::of(links)
}

/// Whether the step leads from the router and attains its distance.
fn is_hop(step: &Step, distances: &[Option<u64>], at: Router) -> bool
    ensures { result ≡ is_hop (distance_map distances.now) at.0 step.now }
{
    step.tail.0 == at.0
        && is_sum(
            distance_of(distances, step.tail),
            step.cost,
            distance_of(distances, step.head),
        )
}

/// Whether the distance is that of the rest and the cost.
fn is_sum(distance: Option<u64>, cost: u64, rest: Option<u64>) -> bool
    ensures { result ≡ is_sum distance cost rest }
{
    match (distance, rest) {
        (Some(distance), Some(rest)) => distance >= cost && distance - cost == rest,
        _ => false,
    }
}

pub(crate) fn distance_of(distances: &[Option<u64>], router: Router) -> Option<u64>
    ensures { result ≡ distance_map distances.now router.0 }
{
    match distances.get(router.0 as usize) {
        Some(distance) => *distance,
        None => None,
    }
}
