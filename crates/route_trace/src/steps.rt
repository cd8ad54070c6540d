//! The usable arcs of a network.
ghost use Rattle.net_model.specs.Routing.{cost_at, Arc};
ghost use Rattle.net_model.specs.Validity.{IsValid};
ghost use Rattle.route_trace.specs.Routes.{flagged};
ghost use Rattle.route_trace.specs.Steps.{IsStepAt, HasNoArc, flag_of, AreSteps, IsFit, end_router};
ghost use Rattle.std.specs.Option.{option_to_list};
ghost use Rattle.std.specs.Prelude.{◌≡◌, ◌++◌, false, length, All, IfOk, IfSome, IfNone, IsTrue};
ghost use Rattle.std.specs.Prelude.{OnOk};

use arc_base::{Link, Memory, Prefix, Router};
use net_model::{FaceRow, Network, Protocol, RoutedLink};
use std::alloc::Global;

/// A usable arc, as routes see it: its link, the routers that it leads from and to, and its cost.
#[derive(Clone, Copy, Debug)]
pub(crate) struct Step {
    pub(crate) link: Link,
    pub(crate) tail: Router,
    pub(crate) head: Router,
    pub(crate) cost: u64,
}

/// An end of a step.
#[derive(Clone, Copy, Debug)]
pub(crate) enum End {
    Tail,
    Head,
}

impl Step {
    /// The router at an end.
    pub(crate) fn at(&self, end: End) -> Router
        ensures { result ≡ end_router end self.now }
    {
        match end {
            End::Tail => self.tail,
            End::Head => self.head,
        }
    }
}

/// The steps of the usable arcs, in the order of the links.
pub(crate) fn steps(
    alloc: Global,
    net: &Network,
    down: &[bool],
    to: Prefix,
) -> Result<Vec<Step>, Memory>
    requires valid { IsValid net.now }
    requires flags { length down.now ≡ length net.now.links }
    ensures exact { IfOk result (λ steps.
        AreSteps net.now to (flagged down.now) (length net.now.links) steps.items) }
    ensures fit { IfOk result (λ steps. All (IsFit (length net.now.routers)) steps.items) }
{
    let table = net.routed_links(alloc, to)?;
    let mut steps = Vec::new(alloc);
    for (place, flags) in table.slice().iter().enumerate() {
        let link = Link(place as u32);
        let failed = down[place];
        add(&mut steps, usable_step(net, flags, failed, link, true))?;
        add(&mut steps, usable_step(net, flags, failed, link, false))?;
    }
    Ok(steps)
}

/// Adds the step at the end, if there is one.
fn add(steps: &mut Vec<Step>, step: Option<Step>) -> Result<(), Memory>
    ensures { OnOk result (steps.new.items ≡ steps.old.items ++ option_to_list step) }
{
    if let Some(step) = step {
        steps.push(step)?;
    }
    Ok(())
}

/// The step of the link's arc in this direction, if it is routed and the link has not failed.
fn usable_step(
    net: &Network,
    flags: &RoutedLink,
    failed: bool,
    link: Link,
    from_a: bool,
) -> Option<Step>
    ensures found { IfSome result (λ step. (failed ≡ false) × IsTrue (flag_of flags.now from_a) ×
        IsStepAt net.now link.0 from_a step) }
    ensures none { IfNone result (failed ≡ false → IsTrue (flag_of flags.now from_a) →
        HasNoArc net.now link.0 from_a) }
{
    let routed = if from_a { flags.from_a } else { flags.from_b };
    if failed || !routed {
        return None;
    }
    step_at(net, link, from_a)
}

/// The step of the link's arc in this direction.
fn step_at(net: &Network, link: Link, from_a: bool) -> Option<Step>
    ensures found { IfSome result (IsStepAt net.now link.0 from_a) }
    ensures none { IfNone result (HasNoArc net.now link.0 from_a) }
{
    let row = net.links.get(link.0)?;
    let tail = net.faces.get(row.tail(from_a).0)?;
    let head = net.faces.get(row.head(from_a).0)?;
    Some(Step {
        link,
        tail: tail.router,
        head: head.router,
        cost: cost(net.protocol, tail),
    })
}

/// The cost of an arc with this interface at its tail.
fn cost(protocol: Protocol, tail: &FaceRow) -> u64
    ensures { (arc : Arc) → arc.tail ≡ tail.now → result ≡ cost_at protocol arc }
{
    match protocol {
        Protocol::Ospf => u64::from(tail.cost),
        Protocol::Bgp => 1,
    }
}
