//! Arcs with their rows, and the search for a routed one.
ghost use Rattle.net_model.specs.Routing.{IsArc};
ghost use Rattle.std.specs.Prelude.{◌≡◌, Bool, true, false, IfSome, IfNone};
ghost use Rattle.witness_check.specs.Cases.{CaseHolds, arc_of, IsRoutedArc, IsOver, EachOver};
ghost use Rattle.witness_check.specs.Cases.{EachRouted, TestGives};

use crate::cases::Case;
use arc_base::Link;
use net_model::{FaceRow, LinkRow};

/// An arc with its rows.
#[derive(Clone, Copy)]
pub struct ArcRows<'a> {
    pub link: Link,
    /// Whether it leads from end a to end b.
    pub from_a: bool,
    pub row: LinkRow,
    /// The interface at which it begins.
    pub tail: &'a FaceRow,
    /// The interface at which it ends.
    pub head: &'a FaceRow,
}

impl<'a> Case<'a> {
    /// The arc of the link in one direction, if it is one of the network.
    fn arc_over(&self, link: Link, from_a: bool) -> Option<ArcRows<'a>>
        ensures found { IfSome result (λ arc. IsArc self.now.net.now (arc_of arc)) }
        ensures over { IfSome result (λ arc. IsOver link.0 from_a (arc_of arc)) }
        ensures none { IfNone result
            (EachOver self.now.net.now self.now.to link.0 from_a (λ _. ⊥)) }
    {
        let net = self.net;
        let row = *net.links.get(link.0)?;
        let tail = net.faces.get(row.tail(from_a).0)?;
        let head = net.faces.get(row.head(from_a).0)?;
        Some(ArcRows {
            link,
            from_a,
            row,
            tail,
            head,
        })
    }

    /// The arc of the link in one direction, if the test says yes to it and it is routed. Whether
    /// it is routed is found last, by binary search among the sessions.
    pub fn routed_in<F: Fn(ArcRows<'a>) -> bool>(
        &self,
        link: Link,
        from_a: bool,
        test: &F,
    ) -> Option<ArcRows<'a>>
        requires told { CaseHolds self.now }
        requires test { F.IsAlwaysCallable test.now }
        ensures routed { IfSome result (λ arc.
            IsRoutedArc self.now.net.now self.now.to (arc_of arc)) }
        ensures over { IfSome result (λ arc. IsOver link.0 from_a (arc_of arc)) }
        ensures yes { IfSome result (λ arc. F.post test.now arc true) }
        ensures none { IfNone result (EachOver self.now.net.now self.now.to link.0 from_a
            (TestGives (F.post test.now) false)) }
    {
        let arc = self.arc_over(link, from_a)?;
        if !test(arc) {
            return None;
        }
        if self.net.routed_if_told(self.told, link, from_a, self.to) {
            Some(arc)
        } else {
            None
        }
    }

    /// The first of the link's routed arcs to which the test says yes, if there is one.
    pub fn routed_on<F: Fn(ArcRows<'a>) -> bool>(&self, link: Link, test: &F) -> Option<ArcRows<'a>>
        requires told { CaseHolds self.now }
        requires test { F.IsAlwaysCallable test.now }
        ensures routed { IfSome result (λ arc.
            IsRoutedArc self.now.net.now self.now.to (arc_of arc)) }
        ensures over { IfSome result (λ arc. arc.link.0 ≡ link.0) }
        ensures yes { IfSome result (λ arc. F.post test.now arc true) }
        ensures none { IfNone result ((from_a : Bool) → EachOver self.now.net.now self.now.to link.0
            from_a (TestGives (F.post test.now) false)) }
    {
        match self.routed_in(link, true, test) {
            Some(arc) => Some(arc),
            None => self.routed_in(link, false, test),
        }
    }

    /// The first of the routed arcs to which the test says yes, if there is one.
    pub fn first_routed<F: Fn(ArcRows<'a>) -> bool>(&self, test: F) -> Option<ArcRows<'a>>
        requires told { CaseHolds self.now }
        requires test { F.IsAlwaysCallable test }
        ensures routed { IfSome result (λ arc.
            IsRoutedArc self.now.net.now self.now.to (arc_of arc)) }
        ensures yes { IfSome result (λ arc. F.post test arc true) }
        ensures none { IfNone result
            (EachRouted self.now.net.now self.now.to (TestGives (F.post test) false)) }
    {
        for place in 0..self.net.links.len() {
            if let Some(arc) = self.routed_on(Link(place), &test) {
                return Some(arc);
            }
        }
        None
    }
}
