//! Whether links are a walk that breaks the policy.
ghost use Rattle.net_model.specs.Validity.{IsValid};
ghost use Rattle.net_model.specs.Witnesses.{IsRightWalk};
ghost use Rattle.std.specs.Prelude.{◌↔◌, IsTrue};
ghost use Rattle.witness_check.specs.Cases.{CaseHolds, ends_in};
ghost use Rattle.witness_check.specs.Trails.{IsWalk};

use crate::cases::Case;
use crate::packets::lies_in;
use arc_base::Link;
use net_model::{Class, LinkPath, PolicyKind};

impl Case<'_> {
    /// Whether the links are a walk that may carry each packet of the class and breaks the policy:
    /// they lead from the source to the target, and no router occurs twice on the way.
    fn walks(&self, kind: PolicyKind, class: Class, links: &[Link]) -> bool
        requires told { CaseHolds self.now }
        requires valid { IsValid self.now.net.now }
        ensures { IsTrue result ↔ IsWalk self.now.net.now self.now.to kind class
            self.now.source.now.router.0 links.now self.now.target.now.router.0 }
    {
        self.goes_once(links) && self.carries(kind, class, links)
    }

    /// Whether the walk is right: each packet of a part of the policy may take it, and it breaks
    /// the policy.
    pub(crate) fn is_right_walk(&self, kind: PolicyKind, class: Class, path: &LinkPath) -> bool
        requires told { CaseHolds self.now }
        requires valid { IsValid self.now.net.now }
        ensures { IsTrue result ↔
            IsRightWalk self.now.net.now (ends_in self.now) kind self.now.whole class path.now }
    {
        if !lies_in(class, self.whole) {
            return false;
        }
        if !self.each_passes(class) {
            return false;
        }
        self.walks(kind, class, path.links.slice())
    }
}
