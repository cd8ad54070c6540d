//! Checks of the yes answers without paths, none of which allocates.
ghost use Rattle.arc_nodecut.specs.Judged.{IsJoin};
ghost use Rattle.arc_nodecut.specs.NodeWitnesses.{IsServed, IsRightSame, IsRightDirect};
ghost use Rattle.net_model.specs.Forwarding.{source_router, target_router};
ghost use Rattle.std.specs.Prelude.{◌↔◌, IsTrue};
ghost use Rattle.witness_check.specs.Cases.{CaseHolds, ends_in};

use arc_base::Link;
use witness_check::{ArcRows, Case};

/// Whether the policy is clear, and all its packets enter and leave.
pub(crate) fn is_served(case: &Case<'_>) -> bool
    requires { CaseHolds case.now }
    ensures { IsTrue result ↔ IsServed case.now.net.now (ends_in case.now) case.now.whole }
{
    if !case.each_passes(case.whole) {
        return false;
    }
    case.is_clear()
}

/// Whether the link joins the two ends.
fn joins(case: &Case<'_>, link: Link) -> bool
    requires { CaseHolds case.now }
    ensures { IsTrue result ↔ IsJoin case.now.net.now case.now.to (source_router (ends_in case.now))
        (target_router (ends_in case.now)) link.0 }
{
    let joins = |arc: ArcRows<'_>| arc.tail.router.0 == case.source.router.0
        && arc.head.router.0 == case.target.router.0;
    case.routed_on(link, &joins).is_some()
}

/// Whether it is right that both ends are at one router.
pub(crate) fn is_right_same(case: &Case<'_>) -> bool
    requires { CaseHolds case.now }
    ensures { IsTrue result ↔ IsRightSame case.now.net.now (ends_in case.now) case.now.whole }
{
    if !case.is_local() {
        return false;
    }
    is_served(case)
}

/// Whether it is right that the link joins the ends.
pub(crate) fn is_right_direct(case: &Case<'_>, link: Link) -> bool
    requires { CaseHolds case.now }
    ensures { IsTrue result ↔
        IsRightDirect case.now.net.now (ends_in case.now) case.now.whole link }
{
    if case.is_local() {
        return false;
    }
    if !joins(case, link) {
        return false;
    }
    is_served(case)
}
