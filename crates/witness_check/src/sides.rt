//! Whether sides are closed and their classes make up all packets of the policy.
ghost use Rattle.net_model.specs.Packets.{ShareNoPacket, packets};
ghost use Rattle.net_model.specs.Witnesses.{IsUniform, IsRightClosed};
ghost use Rattle.std.specs.Prelude.{◌≡◌, ◌↔◌, ◌^◌, ◌<◌, ◌≤◌, IsTrue, All, AllPairs, length, sum_by};
ghost use Rattle.witness_check.specs.Cases.{CaseHolds, ends_in, arc_of, EachRouted};
ghost use Rattle.witness_check.specs.Sides.{HoldsSource, SparesTarget, Stands, Keeps, KeepsEach};

use crate::answers::answer;
use crate::arcs::ArcRows;
use crate::boxes::{share_none, size};
use crate::cases::Case;
use crate::clearness::arc_permits;
use crate::cuts::is_on;
use crate::order::are_in_order;
use crate::packets::lies_in;
use crate::trails::may_break;
use net_model::{Class, ClassSide, Network, PacketList, PolicyKind};

/// The number of the class's packets.
fn packets(class: Class) -> u128
    ensures packets { result ≡ packets class }
    ensures fits { result ≤ 2 ^ 88 }
{
    u128::from(size(class.from)) * u128::from(size(class.to)) * u128::from(class.service.size())
}

/// The number of packets of all the classes.
fn packets_of_all(sides: &[ClassSide]) -> u128
    requires { length sides.now < 2 ^ 32 }
    ensures { result ≡ sum_by (λ c. packets c.class) sides.now }
{
    let mut sum = 0;
    for shown in sides {
        sum += packets(shown.class);
    }
    sum
}

/// Whether the class shares no packet with any of these.
fn is_apart(class: Class, others: &[ClassSide]) -> bool
    ensures { IsTrue result ↔ All (λ other. ShareNoPacket class other.class) others.now }
{
    others.iter().all(|other| share_none(class, other.class))
}

/// Whether no two of the classes share a packet. It compares each pair of them: they may come in
/// any order, and there is no memory to sort them in.
fn are_all_apart(sides: &[ClassSide]) -> bool
    ensures { IsTrue result ↔ AllPairs (λ c d. ShareNoPacket c.class d.class) sides.now }
{
    for (place, shown) in sides.iter().enumerate() {
        if !is_apart(shown.class, &sides[place + 1..]) {
            return false;
        }
    }
    true
}

/// Whether no two of the classes share a packet. Where they come in order, as in a report that
/// `verify` wrote, neighbours show it.
fn are_apart(sides: &[ClassSide]) -> bool
    ensures { IsTrue result ↔ AllPairs (λ c d. ShareNoPacket c.class d.class) sides.now }
{
    are_in_order(sides) || are_all_apart(sides)
}

/// Whether the list gives the same answer to all packets of the class.
fn is_uniform(list: &PacketList, class: Class) -> bool
    ensures { IsTrue result ↔ IsUniform list.now.entries class }
{
    answer(list, class).is_some()
}

/// Whether each packet list of the network is uniform on the class.
fn are_uniform(net: &Network, class: Class) -> bool
    ensures { IsTrue result ↔ All (λ l. IsUniform l.entries class) net.now.packet_lists }
{
    net.packet_lists
        .slice()
        .iter()
        .all(|list| is_uniform(list, class))
}

impl Case<'_> {
    /// Whether the side holds the source, or the class's packet of first addresses does not enter.
    fn holds_source(&self, shown: &ClassSide) -> bool
        ensures { IsTrue result ↔ HoldsSource self.now.net.now (ends_in self.now) shown.now }
    {
        is_on(&shown.side, self.source.router) || !self.enters(shown.class.first_packet())
    }

    /// Whether the side does not hold the target, or the class's packet of first addresses does not
    /// leave.
    fn spares_target(&self, shown: &ClassSide) -> bool
        ensures { IsTrue result ↔ SparesTarget self.now.net.now (ends_in self.now) shown.now }
    {
        !is_on(&shown.side, self.target.router) || !self.leaves(shown.class.first_packet())
    }

    /// Whether the class is a part of the policy on which the lists are uniform, and the side has a
    /// flag for each router, holds the source if its packets enter, and the target only if none
    /// leaves.
    fn stands(&self, shown: &ClassSide) -> bool
        ensures { IsTrue result ↔
            Stands self.now.net.now (ends_in self.now) self.now.whole shown.now }
    {
        lies_in(shown.class, self.whole)
            && shown.side.len() == self.net.routers.len()
            && self.holds_source(shown)
            && self.spares_target(shown)
            && are_uniform(self.net, shown.class)
    }

    /// Whether each of the sides is right.
    fn each_stands(&self, sides: &[ClassSide]) -> bool
        ensures { IsTrue result ↔
            All (Stands self.now.net.now (ends_in self.now) self.now.whole) sides.now }
    {
        sides.iter().all(|shown| self.stands(shown))
    }

    /// Whether the arc does not leave the side, or does not permit the class's packet of first
    /// addresses.
    fn keeps(&self, arc: &ArcRows<'_>, shown: &ClassSide) -> bool
        ensures { IsTrue result ↔ Keeps self.now.net.now (arc_of arc.now) shown.now }
    {
        if !is_on(&shown.side, arc.tail.router) || is_on(&shown.side, arc.head.router) {
            return true;
        }
        !arc_permits(self.net, arc, shown.class.first_packet())
    }

    /// Whether the arc keeps to each of the sides.
    fn keeps_each(&self, arc: &ArcRows<'_>, sides: &[ClassSide]) -> bool
        ensures { IsTrue result ↔ All (Keeps self.now.net.now (arc_of arc.now)) sides.now }
    {
        sides.iter().all(|shown| self.keeps(arc, shown))
    }

    /// Whether each routed arc that may break the policy keeps to each of the sides.
    fn each_keeps(&self, kind: PolicyKind, sides: &[ClassSide]) -> bool
        requires { CaseHolds self.now }
        ensures { IsTrue result ↔
            EachRouted self.now.net.now self.now.to (KeepsEach self.now.net.now kind sides.now) }
    {
        self.first_routed(|arc| may_break(kind, &arc) && !self.keeps_each(&arc, sides))
            .is_none()
    }

    /// Whether the closed sides are right: their classes make up the policy, and no packet of a
    /// class gets off its side.
    pub(crate) fn are_right_sides(&self, kind: PolicyKind, sides: &[ClassSide]) -> bool
        requires told { CaseHolds self.now }
        requires few { length sides.now < 2 ^ 32 }
        ensures { IsTrue result ↔
            IsRightClosed self.now.net.now (ends_in self.now) kind self.now.whole sides.now }
    {
        if packets_of_all(sides) != packets(self.whole) {
            return false;
        }
        if !are_apart(sides) {
            return false;
        }
        self.each_stands(sides) && self.each_keeps(kind, sides)
    }
}
