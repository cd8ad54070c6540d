//! Whether paths share no router but their ends, without a search and without an allocation.
ghost use Rattle.arc_nodecut.specs.NodePaths.{MayPass, KeepsOff, GoesOff};
ghost use Rattle.arc_nodecut.specs.NodeWitnesses.{GoesBy, IsRightApart};
ghost use Rattle.net_model.specs.Validity.{IsValid};
ghost use Rattle.std.specs.Prelude.{◌↔◌, IsTrue, All, AllPairs};
ghost use Rattle.witness_check.specs.Cases.{CaseHolds, ends_in};
ghost use Rattle.witness_check.specs.Trails.{IsTrail};

use crate::cases::is_served;
use arc_base::{Link, List, Router};
use net_model::LinkPath;
use witness_check::Case;

/// Whether the path passes routers between the ends, none of them twice.
fn goes_by(case: &Case<'_>, path: &LinkPath) -> bool
    requires told { CaseHolds case.now }
    requires valid { IsValid case.now.net.now }
    ensures { IsTrue result ↔ GoesBy case.now.net.now (ends_in case.now) path.now }
{
    if path.links.len() == 1 {
        return false;
    }
    case.goes_once(path.links.slice())
}

/// Whether each of the paths passes routers between the ends, none of them twice.
fn all_go_by(case: &Case<'_>, paths: &[LinkPath]) -> bool
    requires told { CaseHolds case.now }
    requires valid { IsValid case.now.net.now }
    ensures { IsTrue result ↔ All (GoesBy case.now.net.now (ends_in case.now)) paths.now }
{
    for path in paths {
        if !goes_by(case, path) {
            return false;
        }
    }
    true
}

/// Whether another path may pass the router beside this one: it is one of the ends, or this path
/// does not pass it.
fn may_pass(case: &Case<'_>, path: &LinkPath, router: Router) -> bool
    requires told { CaseHolds case.now }
    requires valid { IsValid case.now.net.now }
    ensures { IsTrue result ↔ MayPass case.now.net.now (ends_in case.now) path.now router.0 }
{
    if router.0 == case.source.router.0 {
        return true;
    }
    if router.0 == case.target.router.0 {
        return true;
    }
    case.avoids(case.source.router, path.links.slice(), router)
}

/// Whether the links lead from the source to the target by routers that they may pass beside the
/// other path.
fn keeps_off(case: &Case<'_>, links: &[Link], other: &LinkPath) -> bool
    requires told { CaseHolds case.now }
    requires valid { IsValid case.now.net.now }
    ensures { IsTrue result ↔ IsTrail case.now.net.now case.now.to
        (KeepsOff case.now.net.now (ends_in case.now) other.now) case.now.source.now.router.0
        links.now case.now.target.now.router.0 }
{
    case.leads(
        case.source.router,
        links,
        |arc| may_pass(case, other, arc.head.router),
    )
}

/// Whether the links keep off each of the other paths.
fn keeps_off_all(case: &Case<'_>, path: &LinkPath, others: &[LinkPath]) -> bool
    requires told { CaseHolds case.now }
    requires valid { IsValid case.now.net.now }
    ensures { IsTrue result ↔
        All (GoesOff case.now.net.now (ends_in case.now) path.now) others.now }
{
    for other in others {
        if !keeps_off(case, path.links.slice(), other) {
            return false;
        }
    }
    true
}

/// Whether each path keeps off those that come after it.
fn are_apart(case: &Case<'_>, paths: &[LinkPath]) -> bool
    requires told { CaseHolds case.now }
    requires valid { IsValid case.now.net.now }
    ensures { IsTrue result ↔ AllPairs (GoesOff case.now.net.now (ends_in case.now)) paths.now }
{
    for (place, path) in paths.iter().enumerate() {
        if !keeps_off_all(case, path, &paths[place + 1..]) {
            return false;
        }
    }
    true
}

/// Whether there are k + 1 paths, each by routers between the ends, and no two share one of these.
pub(crate) fn is_right_apart(case: &Case<'_>, k: u32, paths: &List<LinkPath>) -> bool
    requires told { CaseHolds case.now }
    requires valid { IsValid case.now.net.now }
    ensures { IsTrue result ↔
        IsRightApart case.now.net.now (ends_in case.now) k case.now.whole paths.now }
{
    if case.is_local() {
        return false;
    }
    if u64::from(paths.len()) != u64::from(k) + 1 {
        return false;
    }
    if !all_go_by(case, paths.slice()) {
        return false;
    }
    if !are_apart(case, paths.slice()) {
        return false;
    }
    is_served(case)
}
