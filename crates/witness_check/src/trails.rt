//! Whether links lead on from router to router.
ghost use Rattle.net_model.specs.Routing.{Arc};
ghost use Rattle.net_model.specs.Validity.{IsValid};
ghost use Rattle.net_model.specs.Witnesses.{IsPath, MayBreak};
ghost use Rattle.std.specs.Prelude.{◌↔◌, ℕ, true, false, IsTrue, IsFalse, IfSome, IfNone};
ghost use Rattle.witness_check.specs.Cases.{CaseHolds, arc_of, ends_in, TestGives};
ghost use Rattle.witness_check.specs.Trails.{IsStep, IsTrail, IsTrailOnce, MayCarry, Avoids};

use crate::arcs::ArcRows;
use crate::cases::Case;
use crate::clearness::arc_permits_each;
use arc_base::{Link, Router};
use net_model::{Class, LinkPath, PolicyKind};

/// Whether a walk that breaks the policy may use the arc: any for blocked, one over a link that is
/// no waypoint for through.
pub(crate) fn may_break(kind: PolicyKind, arc: &ArcRows<'_>) -> bool
    ensures { IsTrue result ↔ MayBreak kind (arc_of arc.now) }
{
    match kind {
        PolicyKind::Through => !arc.row.waypoint,
        _ => true,
    }
}

impl<'a> Case<'a> {
    /// The routed arc that leads on from the router over the link. A link joins two routers, so
    /// there is one at most.
    pub fn step(&self, router: Router, link: Link) -> Option<ArcRows<'a>>
        requires { CaseHolds self.now }
        ensures found { IfSome result (λ arc.
            IsStep self.now.net.now self.now.to router.0 link.0 (arc_of arc)) }
        ensures none { IfNone result ((arc : Arc) →
            ¬ IsStep self.now.net.now self.now.to router.0 link.0 arc) }
    {
        self.routed_on(link, &|arc: ArcRows<'_>| arc.tail.router.0 == router.0)
    }

    /// The router to which the links lead from this one, if they lead on over routed arcs to which
    /// the test says yes.
    pub fn end_of<F: Fn(ArcRows<'a>) -> bool>(
        &self,
        from: Router,
        links: &[Link],
        test: F,
    ) -> Option<Router>
        requires told { CaseHolds self.now }
        requires valid { IsValid self.now.net.now }
        requires test { F.IsAlwaysCallable test }
        ensures found { IfSome result (λ router. IsTrail self.now.net.now self.now.to
            (TestGives (F.post test) true) from.0 links.now router.0) }
        ensures none { IfNone result ((v : ℕ) → ¬ IsTrail self.now.net.now self.now.to
            (λ arc. ¬ TestGives (F.post test) false arc) from.0 links.now v) }
    {
        let mut router = from;
        for link in links {
            let Some(arc) = self.step(router, *link) else {
                return None;
            };
            if !test(arc) {
                return None;
            }
            router = arc.head.router;
        }
        Some(router)
    }

    /// Whether the links lead from the router to the target over routed arcs to which the test says
    /// yes.
    pub fn leads<F: Fn(ArcRows<'a>) -> bool>(&self, from: Router, links: &[Link], test: F) -> bool
        requires told { CaseHolds self.now }
        requires valid { IsValid self.now.net.now }
        requires test { F.IsAlwaysCallable test }
        ensures yes { IsTrue result → IsTrail self.now.net.now self.now.to
            (TestGives (F.post test) true) from.0 links.now self.now.target.now.router.0 }
        ensures no { IsFalse result → ¬ IsTrail self.now.net.now self.now.to
            (λ arc. ¬ TestGives (F.post test) false arc) from.0 links.now
            self.now.target.now.router.0 }
    {
        match self.end_of(from, links, test) {
            Some(router) => router.0 == self.target.router.0,
            None => false,
        }
    }

    /// Whether the path leads from the source to the target.
    pub(crate) fn is_path(&self, path: &LinkPath) -> bool
        requires told { CaseHolds self.now }
        requires valid { IsValid self.now.net.now }
        ensures { IsTrue result ↔ IsPath self.now.net.now (ends_in self.now) path.now }
    {
        self.leads(self.source.router, path.links.slice(), |_arc| true)
    }

    /// Whether the links lead from the source to the target over arcs that permit each packet of
    /// the class, and that a walk that breaks the policy may use.
    pub(crate) fn carries(&self, kind: PolicyKind, class: Class, links: &[Link]) -> bool
        requires told { CaseHolds self.now }
        requires valid { IsValid self.now.net.now }
        ensures { IsTrue result ↔
            IsTrail self.now.net.now self.now.to (MayCarry self.now.net.now kind class)
            self.now.source.now.router.0 links.now self.now.target.now.router.0 }
    {
        self.leads(self.source.router, links, |arc| {
            may_break(kind, &arc) && arc_permits_each(self.net, &arc, class)
        })
    }

    /// Whether the links lead from the one router to the target, and no arc leads to the other
    /// router.
    pub fn avoids(&self, from: Router, links: &[Link], other: Router) -> bool
        requires told { CaseHolds self.now }
        requires valid { IsValid self.now.net.now }
        ensures { IsTrue result ↔ IsTrail self.now.net.now self.now.to (Avoids other.0) from.0
            links.now self.now.target.now.router.0 }
    {
        self.leads(from, links, |arc| arc.head.router.0 != other.0)
    }

    /// Whether the links lead from the source to the target, and no router occurs twice on the way.
    /// Each router is looked for among those that follow it.
    pub fn goes_once(&self, links: &[Link]) -> bool
        requires told { CaseHolds self.now }
        requires valid { IsValid self.now.net.now }
        ensures { IsTrue result ↔ IsTrailOnce self.now.net.now self.now.to
            self.now.source.now.router.0 links.now self.now.target.now.router.0 }
    {
        let mut router = self.source.router;
        for (place, link) in links.iter().enumerate() {
            if !self.avoids(router, &links[place..], router) {
                return false;
            }
            let Some(arc) = self.step(router, *link) else {
                return false;
            };
            router = arc.head.router;
        }
        router.0 == self.target.router.0
    }
}
