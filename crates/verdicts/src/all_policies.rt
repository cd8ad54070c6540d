//! The verdicts on all policies of a document.
ghost use Rattle.net_model.specs.Forwarding.{HasEnds};
ghost use Rattle.net_model.specs.Packets.{subject};
ghost use Rattle.net_model.specs.Policies.{HasFewFailures};
ghost use Rattle.net_model.specs.Validity.{IsValid};
ghost use Rattle.net_model.specs.Witnesses.{IsRight, is_yes};
ghost use Rattle.std.specs.List.{AllZip, list_all};
ghost use Rattle.std.specs.Prelude.{◌≡◌, All, IfOk};
ghost use Rattle.verdicts.specs.Fixed.{IsFixed};
ghost use Rattle.verdicts.specs.Judged.{HasFewClassesEach};

use crate::judgement::judge_few;
use arc_base::{List, Memory};
use net_model::{Network, Policy, Verdict};
use run_progress::{Listener, Work};
use std::alloc::Global;
use traffic_classes::Marks;

/// The verdict on each policy, in order, and the listener hears of each. Each has at most
/// `CLASS_LIMIT` traffic classes. A graph of routed arcs is built only where other arcs are routed
/// than for the policy before.
pub fn judge_all<L: Listener>(
    alloc: Global,
    net: &Network,
    policies: &List<Policy>,
    listener: &mut L,
) -> Result<List<Verdict>, Memory>
    requires valid { IsValid net.now }
    requires ends { All (λ policy. HasEnds net.now (subject policy)) policies.now }
    requires failures { All (λ policy. HasFewFailures policy.kind) policies.now }
    requires classes { HasFewClassesEach net.now policies.now }
    ensures right { IfOk result (AllZip (IsRight net.now) policies.now) }
    ensures fixed { IfOk result (AllZip (IsFixed net.now policies.now) policies.now) }
{
    let marks = Marks::of(alloc, net, policies)?;
    let mut verdicts = List::make(alloc);
    let mut last = None;
    for policy in policies.slice() {
        listener.heard(Work::Judging {
            place: verdicts.len(),
            count: policies.len(),
        });
        let verdict = judge_few(alloc, net, policies, &marks, policy, &mut last)?;
        verdicts.push(verdict)?;
    }
    Ok(verdicts)
}

/// Whether each verdict is a yes.
pub fn are_all_yes(verdicts: &[Verdict]) -> bool
    ensures { result ≡ list_all is_yes verdicts.now }
{
    verdicts.iter().all(|verdict| verdict.is_yes())
}
