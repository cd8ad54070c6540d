//! Whether links are a cut: all links whose routed arcs leave a side.
ghost use Rattle.net_model.specs.Witnesses.{IsOn, IsRightCut, IsRightRefused, IsRightDenied};
ghost use Rattle.std.specs.List.Sorted.{IsStrictlyIncreasing};
ghost use Rattle.std.specs.Prelude.{◌↔◌, ◌<◌, IsTrue, All, map};
ghost use Rattle.witness_check.specs.Cases.{CaseHolds, ends_in};
ghost use Rattle.witness_check.specs.Cuts.{LeavesOver, CutsOver, CutsAll, IsCut};
ghost use Rattle.witness_check.specs.Cuts.{PartsEnds, DeniesOver};

use crate::arcs::ArcRows;
use crate::cases::Case;
use crate::clearness::arc_permits;
use crate::packets::{is_of, lies_in};
use crate::paths::contains;
use arc_base::{Link, List, Router};
use net_model::{Class, Packet};

/// Whether the router is on the side.
pub fn is_on(side: &List<bool>, router: Router) -> bool
    ensures { IsTrue result ↔ IsOn side.now router.0 }
{
    match side.get(router.0) {
        Some(flag) => *flag,
        None => false,
    }
}

/// Whether each link comes after the one before it.
fn are_rising(links: &[Link]) -> bool
    ensures { IsTrue result ↔ IsStrictlyIncreasing (map (λ l. l.0) links.now) }
{
    for place in 1..links.len() {
        if links[place].0 <= links[place - 1].0 {
            return false;
        }
    }
    true
}

impl Case<'_> {
    /// Whether a routed arc of the link leaves the side.
    fn leaves_side(&self, side: &List<bool>, link: Link) -> bool
        requires { CaseHolds self.now }
        ensures { IsTrue result ↔ LeavesOver self.now.net.now self.now.to side.now link.0 }
    {
        let leaves = |arc: ArcRows<'_>| is_on(side, arc.tail.router)
            && !is_on(side, arc.head.router);
        self.routed_on(link, &leaves).is_some()
    }

    /// Whether a routed arc of each of these links leaves the side.
    fn each_leaves_side(&self, side: &List<bool>, links: &[Link]) -> bool
        requires { CaseHolds self.now }
        ensures { IsTrue result ↔
            All (λ l. LeavesOver self.now.net.now self.now.to side.now l.0) links.now }
    {
        for link in links {
            if !self.leaves_side(side, *link) {
                return false;
            }
        }
        true
    }

    /// Whether no routed arc of the link leaves the side, or the link is one of these.
    fn cuts_over(&self, side: &List<bool>, links: &[Link], link: Link) -> bool
        requires { CaseHolds self.now }
        ensures { IsTrue result ↔ CutsOver self.now.net.now self.now.to side.now links.now link }
    {
        !self.leaves_side(side, link) || contains(links, link)
    }

    /// Whether no routed arc leaves the side but over these links.
    fn cuts_all(&self, side: &List<bool>, links: &[Link]) -> bool
        requires { CaseHolds self.now }
        ensures { IsTrue result ↔ CutsAll self.now.net.now self.now.to side.now links.now }
    {
        for place in 0..self.net.links.len() {
            if !self.cuts_over(side, links, Link(place)) {
                return false;
            }
        }
        true
    }

    /// Whether these are exactly the links over which routed arcs leave the side.
    fn is_cut(&self, side: &List<bool>, links: &[Link]) -> bool
        requires { CaseHolds self.now }
        ensures { IsTrue result ↔ IsCut self.now.net.now self.now.to side.now links.now }
    {
        self.each_leaves_side(side, links) && self.cuts_all(side, links)
    }

    /// Whether the side has a flag for each router, and holds the source and not the target.
    fn parts_ends(&self, side: &List<bool>) -> bool
        ensures { IsTrue result ↔ PartsEnds self.now.net.now (ends_in self.now) side.now }
    {
        side.len() == self.net.routers.len()
            && is_on(side, self.source.router)
            && !is_on(side, self.target.router)
    }

    /// Whether the cut is right: no more links than may fail, exactly those over which routed arcs
    /// leave the side.
    pub(crate) fn is_right_cut(&self, k: u32, links: &[Link], side: &List<bool>) -> bool
        requires { CaseHolds self.now }
        ensures { IsTrue result ↔
            IsRightCut self.now.net.now (ends_in self.now) k self.now.whole links.now side.now }
    {
        if self.is_local() {
            return false;
        }
        if links.len() as u64 > u64::from(k) || !are_rising(links) {
            return false;
        }
        if !self.parts_ends(side) {
            return false;
        }
        self.is_cut(side, links) && self.is_clear()
    }

    /// Whether a routed arc of the link denies the packet.
    fn denies(&self, p: Packet, link: Link) -> bool
        requires { CaseHolds self.now }
        ensures { IsTrue result ↔ DeniesOver self.now.net.now self.now.to p link.0 }
    {
        let denies = |arc: ArcRows<'_>| !arc_permits(self.net, &arc, p);
        self.routed_on(link, &denies).is_some()
    }

    /// Whether the refusal is right: the packet is the policy's, and a routed arc of the link
    /// denies it.
    pub(crate) fn is_right_refusal(&self, p: Packet, link: Link) -> bool
        requires { CaseHolds self.now }
        ensures { IsTrue result ↔
            IsRightRefused self.now.net.now (ends_in self.now) self.now.whole p link }
    {
        !self.is_local() && is_of(self.whole, p) && self.denies(p, link)
    }

    /// Whether the denial is right: the policy is clear, and no packet of a part of it both enters
    /// and leaves.
    pub(crate) fn is_right_denial(&self, class: Class) -> bool
        requires { CaseHolds self.now }
        ensures { IsTrue result ↔
            IsRightDenied self.now.net.now (ends_in self.now) self.now.whole class }
    {
        lies_in(class, self.whole) && self.none_passes(class) && self.is_clear()
    }
}
