//! The verdict on a policy by its kind.
ghost use Rattle.class_graph.specs.Classes.{AreAllUniform};
ghost use Rattle.class_graph.specs.Hosts.{IsHostPair, HasHostPair};
ghost use Rattle.class_graph.specs.LastGraphs.{IsGraphOfTable};
ghost use Rattle.net_model.specs.Forwarding.{Ends, HasEnds};
ghost use Rattle.net_model.specs.Packets.{subject};
ghost use Rattle.net_model.specs.Policies.{HasFewFailures};
ghost use Rattle.net_model.specs.Validity.{IsValid};
ghost use Rattle.net_model.specs.Witnesses.{IsRight};
ghost use Rattle.net_model.specs.declared.policies.Class.{Class as AnyClass};
ghost use Rattle.std.specs.Option.{ForSome};
ghost use Rattle.std.specs.Prelude.{◌<◌, length, slice_get, Contains, IfOk, IfErr, IfSome};
ghost use Rattle.traffic_classes.specs.Classes.{AreMarks, HasClasses};
ghost use Rattle.traffic_classes.specs.Parts.{MakeUp};
ghost use Rattle.verdicts.specs.Fixed.{IsFixed};
ghost use Rattle.verdicts.specs.Judged.{CountsMore, HasFewClassesEach, IsVerdict};

use crate::blocking::judge_blocking;
use crate::fault::JudgeFault;
use crate::reach::judge_reach;
use arc_base::{List, Memory};
use class_graph::{HostPair, LastGraph, graph_in, host_pair, listed_in, refresh_graph};
use net_model::{Class, Network, Policy, PolicyKind, Verdict};
use std::alloc::Global;
use traffic_classes::Marks;

/// The verdict on the policy at a place, counted from 0.
///
/// It looks at each traffic class of the policy once, and at no set of failed links. For all
/// policies call `judge_all`.
pub fn judge(
    alloc: Global,
    net: &Network,
    policies: &List<Policy>,
    which: u32,
) -> Result<Verdict, JudgeFault>
    requires valid { IsValid net.now }
    requires place { which < length policies.now }
    requires ends { ForSome (slice_get policies.now which) (λ p. HasEnds net.now (subject p)) }
    requires failures { ForSome (slice_get policies.now which) (λ p. HasFewFailures p.kind) }
    ensures right { IfOk result (λ v.
        IfSome (slice_get policies.now which) (λ p. IsRight net.now p v)) }
    ensures fixed { IfOk result (λ v.
        IfSome (slice_get policies.now which) (λ p. IsFixed net.now policies.now p v)) }
    ensures many { IfErr result (CountsMore (λ count.
        IfSome (slice_get policies.now which) (λ p. HasClasses net.now policies.now p count))) }
{
    let Some(policy) = policies.get(which) else {
        unreachable!()
    };
    let marks = Marks::of(alloc, net, policies)?;
    let parts = marks.classes(alloc, policy)?;
    let pair = host_pair(alloc, net, policy.subject(), &None)?;
    let mut last = None;
    let verdict = judge_classes(alloc, net, &pair, &parts, policy.kind, &mut last)?;
    Ok(verdict)
}

/// The verdict on one of the policies, which have few classes each, where these are the marks of
/// the network with them. The graph that was built last serves it if it can, and the next policy
/// may use the one that is then the last.
pub fn judge_few(
    alloc: Global,
    net: &Network,
    policies: &List<Policy>,
    marks: &Marks,
    policy: &Policy,
    last: &mut Option<LastGraph>,
) -> Result<Verdict, Memory>
    requires valid { IsValid net.now }
    requires marks { AreMarks net.now policies.now marks.now }
    requires one { Contains policies.now policy.now }
    requires ends { HasEnds net.now (subject policy.now) }
    requires failures { HasFewFailures policy.now.kind }
    requires classes { HasFewClassesEach net.now policies.now }
    requires last { IfSome last.old (IsGraphOfTable net.now) }
    ensures right { IfOk result (IsRight net.now policy.now) }
    ensures fixed { IfOk result (IsFixed net.now policies.now policy.now) }
    ensures last { IfSome last.new (IsGraphOfTable net.now) }
{
    let parts = marks.split(alloc, policy)?;
    let pair = host_pair(alloc, net, policy.subject(), last)?;
    let verdict = judge_classes(alloc, net, &pair, &parts, policy.kind, last)?;
    Ok(verdict)
}

/// The verdict on a policy of this kind with these classes.
fn judge_classes(
    alloc: Global,
    net: &Network,
    pair: &HostPair,
    parts: &List<Class>,
    kind: PolicyKind,
    last: &mut Option<LastGraph>,
) -> Result<Verdict, Memory>
    requires valid { IsValid net.now }
    requires pair { HasHostPair net.now pair.now }
    requires uniform { AreAllUniform net.now parts.now }
    requires failures { HasFewFailures kind }
    requires last { IfSome last.old (IsGraphOfTable net.now) }
    ensures verdict { IfOk result (λ v. (ends : Ends) (whole : AnyClass) →
        IsHostPair net.now ends pair.now →
        MakeUp net.now whole parts.now → IsVerdict net.now ends kind whole parts.now v) }
    ensures last { IfSome last.new (IsGraphOfTable net.now) }
{
    refresh_graph(alloc, net, pair, last)?;
    let graph = graph_in(last);
    let listed = listed_in(last);
    match kind {
        PolicyKind::Blocked => judge_blocking(alloc, net, pair, graph, parts, kind),
        PolicyKind::Through => judge_blocking(alloc, net, pair, graph, parts, kind),
        PolicyKind::Reach(failures) => {
            judge_reach(alloc, net, pair, graph, listed, parts, failures)
        }
    }
}
