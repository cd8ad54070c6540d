//! Whether routers separate the ends, without a search and without an allocation.
ghost use Rattle.arc_nodecut.specs.CutParts.{StaysOn, IsInner, IsOff};
ghost use Rattle.arc_nodecut.specs.NodeWitnesses.{PartsAt, IsRightRouterCut};
ghost use Rattle.std.specs.List.Sorted.{IsStrictlyIncreasing};
ghost use Rattle.std.specs.Prelude.{◌↔◌, ◌<◌, ◌-◌, IsTrue, All, Contains, map};
ghost use Rattle.witness_check.specs.Cases.{CaseHolds, EachRouted, ends_in};

use arc_base::{List, Router};
use witness_check::{Case, is_on};

/// Whether the router is among these.
fn contains(routers: &[Router], router: Router) -> bool
    ensures { IsTrue result ↔ Contains routers.now router }
{
    routers.iter().any(|r| r.0 == router.0)
}

/// Whether the routers are in rising order, none twice.
fn are_rising(routers: &[Router]) -> bool
    ensures { IsTrue result ↔ IsStrictlyIncreasing (map (λ r. r.0) routers.now) }
{
    for place in 1..routers.len() {
        if routers[place].0 <= routers[place - 1].0 {
            return false;
        }
    }
    true
}

/// Whether none of the routers is on the side.
fn are_off(routers: &[Router], side: &List<bool>) -> bool
    ensures { IsTrue result ↔ All (IsOff side.now) routers.now }
{
    for router in routers {
        if is_on(side, *router) {
            return false;
        }
    }
    true
}

/// Whether the router is one of the network, and neither end.
fn is_inner(case: &Case<'_>, router: Router) -> bool
    ensures { IsTrue result ↔ IsInner case.now.net.now (ends_in case.now) router }
{
    if router.0 >= case.net.routers.len() {
        return false;
    }
    router.0 != case.source.router.0 && router.0 != case.target.router.0
}

/// Whether each of the routers is one of the network, and neither end.
fn are_inner(case: &Case<'_>, routers: &[Router]) -> bool
    ensures { IsTrue result ↔ All (IsInner case.now.net.now (ends_in case.now)) routers.now }
{
    for router in routers {
        if !is_inner(case, *router) {
            return false;
        }
    }
    true
}

/// Whether each routed arc stays on the side, or leads to one of the routers.
fn all_stay_on(case: &Case<'_>, routers: &[Router], side: &List<bool>) -> bool
    requires { CaseHolds case.now }
    ensures { IsTrue result ↔
        EachRouted case.now.net.now case.now.to (StaysOn routers.now side.now) }
{
    case.first_routed(|arc| {
        is_on(side, arc.tail.router)
            && !contains(routers, arc.head.router)
            && !is_on(side, arc.head.router)
    }).is_none()
}

/// Whether the routers separate the ends, with the source on this side of them.
fn parts_at(case: &Case<'_>, routers: &List<Router>, side: &List<bool>) -> bool
    requires { CaseHolds case.now }
    ensures { IsTrue result ↔ PartsAt case.now.net.now (ends_in case.now) routers.now side.now }
{
    if side.len() != case.net.routers.len() {
        return false;
    }
    if !is_on(side, case.source.router) {
        return false;
    }
    if is_on(side, case.target.router) {
        return false;
    }
    if !are_off(routers.slice(), side) {
        return false;
    }
    all_stay_on(case, routers.slice(), side)
}

/// Whether the cut is right: at most k rising routers that separate the ends of a clear policy.
pub(crate) fn is_right_cut(
    case: &Case<'_>,
    k: u32,
    routers: &List<Router>,
    side: &List<bool>,
) -> bool
    requires { CaseHolds case.now }
    ensures { IsTrue result ↔
        IsRightRouterCut case.now.net.now (ends_in case.now) k case.now.whole routers.now side.now }
{
    if case.is_local() {
        return false;
    }
    if routers.len() > k {
        return false;
    }
    if !are_rising(routers.slice()) {
        return false;
    }
    if !are_inner(case, routers.slice()) {
        return false;
    }
    if !parts_at(case, routers, side) {
        return false;
    }
    case.is_clear()
}
