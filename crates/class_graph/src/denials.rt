//! The first link over which a class is denied.
ghost use Rattle.class_graph.specs.Denials.{IsLeastDenied, IsDeniedNowhere, IsDeniedBy};
ghost use Rattle.class_graph.specs.Denials.{IsDeniedOver, IsLeastDeniedBy};
ghost use Rattle.class_graph.specs.Hosts.{HasHostPair};
ghost use Rattle.class_graph.specs.Listed.{AreListed};
ghost use Rattle.net_model.specs.Tables.{AreRoutedLinks};
ghost use Rattle.net_model.specs.Witnesses.{IsUniformFor};
ghost use Rattle.std.specs.Prelude.{◌≡◌, ◌↔◌, ℕ, IsTrue, IsFalse, IfOk, IfSome, IfNone, slice_get};
ghost use Rattle.std.specs.Prelude.{MatchOption, Some, false};

use crate::answers::{arc_allows, list_answers};
use crate::arcs::leads;
use crate::hosts::HostPair;
use arc_base::{Link, List, Memory};
use net_model::{Class, Network};
use std::alloc::Global;

/// The first link over which an arc is routed that denies the class. The table is that of the links
/// with packet lists.
pub(crate) fn denied_link(
    alloc: Global,
    net: &Network,
    pair: &HostPair,
    class: Class,
    listed: &List<bool>,
) -> Result<Option<Link>, Memory>
    requires pair { HasHostPair net.now pair.now }
    requires uniform { IsUniformFor net.now class }
    requires listed { AreListed net.now listed.now }
    ensures { IfOk result (λ found.
        MatchOption found (IsDeniedNowhere net.now pair.now.to class) (λ link.
        IsLeastDenied net.now pair.now.to class link.0)) }
{
    let answers = list_answers(alloc, net, class)?;
    Ok(denied_by(net, pair, &answers, listed))
}

/// The first link over which an arc is routed that denies the packets, where this is what lists
/// answer.
fn denied_by(
    net: &Network,
    pair: &HostPair,
    answers: &List<bool>,
    listed: &List<bool>,
) -> Option<Link>
    requires routed { AreRoutedLinks net.now pair.now.to pair.now.routed }
    requires listed { AreListed net.now listed.now }
    ensures found { IfSome result (λ link. IsLeastDeniedBy net.now pair.now.to answers.now link.0) }
    ensures none { IfNone result ((link : ℕ) → ¬ IsDeniedBy net.now pair.now.to answers.now link) }
{
    for place in 0..net.links.len() {
        if is_denied(net, pair, answers, listed, Link(place)) {
            return Some(Link(place));
        }
    }
    None
}

/// Whether an arc of the link is routed, and does not permit the packets.
fn is_denied(
    net: &Network,
    pair: &HostPair,
    answers: &List<bool>,
    listed: &List<bool>,
    link: Link,
) -> bool
    requires routed { AreRoutedLinks net.now pair.now.to pair.now.routed }
    requires listed { AreListed net.now listed.now }
    ensures { IsTrue result ↔ IsDeniedBy net.now pair.now.to answers.now link.0 }
{
    if !may_deny(listed, link) {
        return false;
    }
    if denies(net, pair, answers, link, true) {
        return true;
    }
    denies(net, pair, answers, link, false)
}

/// Whether the table has the link, as far as it says.
fn may_deny(listed: &List<bool>, link: Link) -> bool
    ensures { IsFalse result → slice_get listed.now link.0 ≡ Some false }
{
    match listed.get(link.0) {
        Some(flag) => *flag,
        None => true,
    }
}

/// Whether the link's arc in this direction is routed, and does not permit the packets.
fn denies(net: &Network, pair: &HostPair, answers: &List<bool>, link: Link, from_a: bool) -> bool
    requires { AreRoutedLinks net.now pair.now.to pair.now.routed }
    ensures { IsTrue result ↔ IsDeniedOver net.now pair.now.to answers.now link.0 from_a }
{
    let Some(flags) = pair.routed.get(link.0) else {
        return false;
    };
    let Some(row) = net.links.get(link.0) else {
        return false;
    };
    let Some(tail) = net.faces.get(row.tail(from_a).0) else {
        return false;
    };
    let Some(head) = net.faces.get(row.head(from_a).0) else {
        return false;
    };
    if !leads(flags, from_a) {
        return false;
    }
    !arc_allows(answers, tail, head)
}
