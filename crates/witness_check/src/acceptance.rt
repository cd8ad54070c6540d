//! Whether a verdict is right by its witness alone, without a search.
ghost use Rattle.net_model.specs.Forwarding.{HasEnds};
ghost use Rattle.net_model.specs.Packets.{subject};
ghost use Rattle.net_model.specs.Validity.{IsValid};
ghost use Rattle.net_model.specs.Witnesses.{IsRight, IsRightFor, IsRightBlocking, IsRightReach};
ghost use Rattle.std.specs.Prelude.{◌↔◌, IsTrue};
ghost use Rattle.witness_check.specs.Cases.{CaseHolds, ends_in};

use crate::cases::Case;
use net_model::{Network, Policy, PolicyKind, Verdict};

impl Case<'_> {
    /// Whether the verdict on a blocked or through policy is right.
    fn is_right_blocking(&self, kind: PolicyKind, v: &Verdict) -> bool
        requires told { CaseHolds self.now }
        requires valid { IsValid self.now.net.now }
        ensures { IsTrue result ↔
            IsRightBlocking self.now.net.now (ends_in self.now) kind self.now.whole v.now }
    {
        match v {
            Verdict::Closed(sides) => self.are_right_sides(kind, sides.slice()),
            Verdict::Walk(class, path) => self.is_right_walk(kind, *class, path),
            _ => false,
        }
    }

    /// Whether the verdict on a reach policy is right.
    fn is_right_reach(&self, k: u32, v: &Verdict) -> bool
        requires told { CaseHolds self.now }
        requires valid { IsValid self.now.net.now }
        ensures { IsTrue result ↔
            IsRightReach self.now.net.now (ends_in self.now) k self.now.whole v.now }
    {
        match v {
            Verdict::Paths(paths) => self.are_right_paths(k, paths.slice()),
            Verdict::Denied(class) => self.is_right_denial(*class),
            Verdict::Cut(links, side) => self.is_right_cut(k, links.slice(), side),
            Verdict::Refused(p, link) => self.is_right_refusal(*p, *link),
            _ => false,
        }
    }

    /// Whether the verdict is right.
    fn is_right(&self, kind: PolicyKind, v: &Verdict) -> bool
        requires told { CaseHolds self.now }
        requires valid { IsValid self.now.net.now }
        ensures { IsTrue result ↔
            IsRightFor self.now.net.now (ends_in self.now) kind self.now.whole v.now }
    {
        match kind {
            PolicyKind::Reach(k) => self.is_right_reach(k, v),
            _ => self.is_right_blocking(kind, v),
        }
    }
}

/// Whether the witness shows that the verdict on the policy is right. By the laws of the model the
/// verdict is then true.
pub fn accepts(net: &Network, policy: &Policy, v: &Verdict) -> bool
    requires valid { IsValid net.now }
    requires ends { HasEnds net.now (subject policy.now) }
    ensures { IsTrue result ↔ IsRight net.now policy.now v.now }
{
    Case::of(net, policy).is_right(policy.kind, v)
}
