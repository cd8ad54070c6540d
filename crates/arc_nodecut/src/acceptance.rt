//! Whether the witness of a verdict under failed routers is right, checked without a search.
ghost use Rattle.arc_nodecut.specs.NodeWitnesses.{IsRightNodeVerdict};
ghost use Rattle.arc_nodecut.specs.Shown.{IsShown};
ghost use Rattle.net_model.specs.Forwarding.{HasEnds};
ghost use Rattle.net_model.specs.Packets.{subject};
ghost use Rattle.net_model.specs.Validity.{IsValid};
ghost use Rattle.std.specs.Prelude.{◌↔◌, IsTrue};
ghost use Rattle.witness_check.specs.Cases.{CaseHolds, ends_in};

use crate::apart::is_right_apart;
use crate::cases::{is_right_direct, is_right_same};
use crate::denied::{is_right_denial, is_right_refusal};
use crate::router_cuts::is_right_cut;
use crate::verdict::NodeVerdict;
use net_model::{Network, Policy, PolicyKind};
use witness_check::Case;

/// Whether the witness shows that the verdict on the policy under failed routers is right. By the
/// laws beside it the verdict is then true. Paths are compared pair by pair, and a cut is judged
/// link by link; no set of failed routers is tried.
pub fn accepts_nodes(net: &Network, policy: &Policy, v: &NodeVerdict) -> bool
    requires valid { IsValid net.now }
    requires ends { HasEnds net.now (subject policy.now) }
    ensures { IsTrue result ↔ IsRightNodeVerdict net.now policy.now v.now }
{
    let PolicyKind::Reach(k) = policy.kind else {
        return false;
    };
    match v {
        NodeVerdict::Denied(class) => is_right_denial(net, policy, *class),
        NodeVerdict::Refused(p, link) => is_right_refusal(net, policy, *p, *link),
        _ => is_shown(&Case::of(net, policy), k, v),
    }
}

/// Whether the case's routers and links show that the verdict is right; false for a denial or a
/// refusal.
fn is_shown(case: &Case<'_>, k: u32, v: &NodeVerdict) -> bool
    requires told { CaseHolds case.now }
    requires valid { IsValid case.now.net.now }
    ensures { IsTrue result ↔ IsShown case.now.net.now (ends_in case.now) k case.now.whole v.now }
{
    match v {
        NodeVerdict::Same => is_right_same(case),
        NodeVerdict::Direct(link) => is_right_direct(case, *link),
        NodeVerdict::Apart(paths) => is_right_apart(case, k, paths),
        NodeVerdict::Cut(routers, side) => is_right_cut(case, k, routers, side),
        _ => false,
    }
}
