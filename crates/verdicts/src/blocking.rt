//! Verdicts on blocked and through policies: for each class one search of its part of the graph of
//! all routed arcs.
ghost use Rattle.class_graph.specs.Classes.{AreAllUniform};
ghost use Rattle.class_graph.specs.Graphs.{IsGraphOf, IsAnyArc};
ghost use Rattle.class_graph.specs.Hosts.{IsHostPair, HasHostPair};
ghost use Rattle.net_model.specs.Forwarding.{Ends};
ghost use Rattle.net_model.specs.Validity.{IsValid};
ghost use Rattle.net_model.specs.Witnesses.{IsUniformFor};
ghost use Rattle.std.specs.Prelude.{◌≡◌, ◌<◌, ◌↔◌, length, IsTrue, IfOk, IsSome, None};
ghost use Rattle.std.specs.Prelude.{slice_index_or};
ghost use Rattle.verdicts.specs.Judged.{mode_of, IsClassAnswer, IsBlockingAnswer};

use crate::sides::{reached_from_source, side_of};
use arc_base::{List, Memory};
use class_graph::{ClassPart, HostPair, Mode, class_part};
use graph_flow::{Closure, Graph};
use net_model::{Class, ClassSide, LinkPath, Network, PolicyKind, Verdict};
use std::alloc::Global;

/// Whether a class is kept from its target, and the witness.
#[derive(Debug, Drop)]
pub(crate) enum ClassAnswer {
    /// It is: its packets do not get off this side.
    Closed(List<bool>),
    /// It is not: its packets get there over this path.
    Walk(LinkPath),
}

/// The verdict on a blocked or through policy with these classes, where the graph is that of all
/// routed arcs.
pub(crate) fn judge_blocking(
    alloc: Global,
    net: &Network,
    pair: &HostPair,
    graph: &Graph,
    classes: &List<Class>,
    kind: PolicyKind,
) -> Result<Verdict, Memory>
    requires valid { IsValid net.now }
    requires pair { HasHostPair net.now pair.now }
    requires graph { IsGraphOf net.now pair.now.to IsAnyArc graph.now }
    requires uniform { AreAllUniform net.now classes.now }
    ensures { IfOk result (λ v. (ends : Ends) → IsHostPair net.now ends pair.now →
        IsBlockingAnswer net.now ends kind classes.now v) }
{
    let mut sides = List::make(alloc);
    for class in classes.slice() {
        let answer = judge_class(alloc, net, pair, graph, *class, kind)?;
        match answer {
            ClassAnswer::Closed(side) => sides.push(ClassSide {
                class: *class,
                side,
            })?,
            ClassAnswer::Walk(path) => return Ok(Verdict::Walk(*class, path)),
        }
    }
    Ok(Verdict::Closed(sides))
}

/// Over which arcs a walk may break a policy of this kind.
fn mode_of(kind: PolicyKind) -> Mode
    ensures { result ≡ mode_of kind }
{
    match kind {
        PolicyKind::Through => Mode::PermittedOffWaypoint,
        _ => Mode::Permitted,
    }
}

/// How far the packets of one class get.
fn judge_class(
    alloc: Global,
    net: &Network,
    pair: &HostPair,
    graph: &Graph,
    class: Class,
    kind: PolicyKind,
) -> Result<ClassAnswer, Memory>
    requires valid { IsValid net.now }
    requires pair { HasHostPair net.now pair.now }
    requires graph { IsGraphOf net.now pair.now.to IsAnyArc graph.now }
    requires uniform { IsUniformFor net.now class }
    ensures { IfOk result (λ a. (ends : Ends) → IsHostPair net.now ends pair.now →
        IsClassAnswer net.now ends kind class a) }
{
    let part = class_part(alloc, net, pair, class, mode_of(kind))?;
    let closure = reached_from_source(alloc, graph, &part)?;
    if is_delivered(&part, &closure) {
        let path = closure.path(alloc, part.target.0)?;
        return Ok(ClassAnswer::Walk(LinkPath { links: path.links }));
    }
    let side = side_of(alloc, &closure, net.routers.len())?;
    Ok(ClassAnswer::Closed(side))
}

/// Whether the packets get to where they leave, and do.
fn is_delivered(part: &ClassPart, closure: &Closure) -> bool
    requires { part.now.target.0 < length closure.now }
    ensures { IsTrue result ↔
        (IsTrue part.now.leaves × IsSome (slice_index_or closure.now part.now.target.0 None)) }
{
    part.leaves && closure.reached(part.target.0)
}
