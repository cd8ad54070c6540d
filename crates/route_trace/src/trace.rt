//! The text of a trace.
ghost use Rattle.net_model.specs.Forwarding.{HasHost};
ghost use Rattle.net_model.specs.Validity.{IsValid};
ghost use Rattle.route_trace.specs.Routes.{flagged, distance_map};
ghost use Rattle.route_trace.specs.Steps.{IsFit, hops_of};
ghost use Rattle.route_trace.specs.TraceText.{traced_name, end_text, trace_head, hops_text};
ghost use Rattle.route_trace.specs.TraceText.{traced_route, route_line, route_lines, IsTrace};
ghost use Rattle.std.specs.Prelude.{◌≡◌, ◌++◌, length, All, IfOk, OnOk};

use crate::front::settle;
use crate::groups::grouped;
use crate::hops::{distance_of, hops};
use crate::steps::{End, Step, steps};
use arc_base::{Link, Memory, Prefix, Router, push_number, push_prefix};
use net_model::Network;
use std::alloc::Global;

/// The text of `arcv trace`: the line `trace FROM ROUTER TO ROUTER`, and then a line for each
/// router, in order, with its name, its distance to the host network of `to` and the links of its
/// next hops, counted from 1. The links whose flag is set have failed.
pub fn trace_text(
    alloc: Global,
    net: &Network,
    down: &[bool],
    from: Prefix,
    to: Prefix,
) -> Result<Vec<u8>, Memory>
    requires valid { IsValid net.now }
    requires flags { length down.now ≡ length net.now.links }
    requires from { HasHost net.now from }
    requires to { HasHost net.now to }
    ensures { IfOk result (λ text. IsTrace net.now (flagged down.now) from to text.items) }
{
    let source = net.host_face(from);
    let target = net.host_face(to);
    let Some(host) = target.host else {
        unreachable!()
    };
    let steps = steps(alloc, net, down, host)?;
    let distances = settle(alloc, &steps, net.routers.len(), target.router)?;
    let mut text = Vec::new(alloc);
    let at_source = router_name(net, source.router);
    let at_target = router_name(net, target.router);
    push_head(alloc, &mut text, &from, at_source, &to, at_target)?;
    push_routes(alloc, &mut text, net, &steps, &distances)?;
    Ok(text)
}

/// The name of the router, and no bytes where there is no such router.
pub fn router_name(net: &Network, router: Router) -> &[u8]
    ensures { result.now ≡ traced_name net.now router.0 }
{
    match net.routers.get(router.0) {
        Some(row) => row.name.bytes(),
        None => &[],
    }
}

fn push_head(
    alloc: Global,
    text: &mut Vec<u8>,
    from: &Prefix,
    at_source: &[u8],
    to: &Prefix,
    at_target: &[u8],
) -> Result<(), Memory>
    ensures { OnOk result (text.new.items ≡ text.old.items ++
        trace_head from.now at_source.now to.now at_target.now) }
{
    text.extend_from_slice(b"trace")?;
    push_end(alloc, text, from, at_source)?;
    push_end(alloc, text, to, at_target)?;
    text.push(b'\n')?;
    Ok(())
}

fn push_end(alloc: Global, text: &mut Vec<u8>, prefix: &Prefix, name: &[u8]) -> Result<(), Memory>
    ensures { OnOk result (text.new.items ≡ text.old.items ++ end_text prefix.now name.now) }
{
    text.push(b' ')?;
    push_prefix(alloc, text, prefix)?;
    text.push(b' ')?;
    text.extend_from_slice(name)?;
    Ok(())
}

/// Appends the lines of all routers.
fn push_routes(
    alloc: Global,
    text: &mut Vec<u8>,
    net: &Network,
    steps: &[Step],
    distances: &[Option<u64>],
) -> Result<(), Memory>
    requires { All (IsFit (length net.now.routers)) steps.now }
    ensures { OnOk result (text.new.items ≡ text.old.items ++
        route_lines net.now distances.now (hops_of steps.now (distance_map distances.now))
        (length net.now.routers)) }
{
    let routers = net.routers.len();
    let groups = grouped(alloc, steps, End::Tail, routers)?;
    for place in 0..routers {
        let router = Router(place);
        let hops = hops(alloc, &groups[place as usize], distances, router)?;
        let distance = distance_of(distances, router);
        push_line(
            alloc,
            text,
            router_name(net, router),
            distance,
            hops.slice(),
        )?;
    }
    Ok(())
}

fn push_line(
    alloc: Global,
    text: &mut Vec<u8>,
    name: &[u8],
    distance: Option<u64>,
    hops: &[Link],
) -> Result<(), Memory>
    ensures { OnOk result
        (text.new.items ≡ text.old.items ++ route_line name.now distance hops.now) }
{
    text.extend_from_slice(name)?;
    text.push(b' ')?;
    push_route(alloc, text, distance, hops)?;
    text.push(b'\n')?;
    Ok(())
}

fn push_route(
    alloc: Global,
    text: &mut Vec<u8>,
    distance: Option<u64>,
    hops: &[Link],
) -> Result<(), Memory>
    ensures { OnOk result (text.new.items ≡ text.old.items ++ traced_route distance hops.now) }
{
    let Some(distance) = distance else {
        text.extend_from_slice(b"none")?;
        return Ok(());
    };
    push_number(alloc, text, distance)?;
    push_hops(alloc, text, hops)
}

fn push_hops(alloc: Global, text: &mut Vec<u8>, hops: &[Link]) -> Result<(), Memory>
    ensures { OnOk result (text.new.items ≡ text.old.items ++ hops_text hops.now) }
{
    if hops.is_empty() {
        return Ok(());
    }
    text.extend_from_slice(b" via")?;
    for hop in hops {
        text.push(b' ')?;
        push_number(alloc, text, u64::from(hop.0) + 1)?;
    }
    Ok(())
}
