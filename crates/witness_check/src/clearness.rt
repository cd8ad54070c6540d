//! Whether the lists on a link permit each packet of a class.
ghost use Rattle.net_model.specs.Forwarding.{Ends, AreEnds, HasEnds, ArcPermits, ArcPermitsEach};
ghost use Rattle.net_model.specs.Packets.{subject};
ghost use Rattle.net_model.specs.Policies.{IsClear};
ghost use Rattle.net_model.specs.Validity.{IsValid};
ghost use Rattle.std.specs.Prelude.{◌↔◌, IsTrue};
ghost use Rattle.witness_check.specs.Cases.{ends_in, CaseHolds, AsksPermitted, EachPermitted};
ghost use Rattle.witness_check.specs.Cases.{EachRouted, arc_of};

use crate::answers::{Asked, none_gets};
use crate::arcs::ArcRows;
use crate::cases::Case;
use arc_base::ListId;
use net_model::{Class, Network, Packet, Policy};

/// The packets that the list with this place permits. An interface without a defined list permits
/// every packet, as the empty list gives every packet the answer no.
pub fn permitted(net: &Network, list: Option<ListId>) -> Asked<'_>
    ensures { AsksPermitted net.now list result }
{
    let Some(id) = list else {
        return Asked {
            entries: &[],
            answer: false,
        };
    };
    match net.packet_lists.get(id.0) {
        Some(list) => Asked {
            entries: list.entries.slice(),
            answer: true,
        },
        None => Asked {
            entries: &[],
            answer: true,
        },
    }
}

/// Whether the list with this place permits each packet of the class.
pub fn permits_each(net: &Network, list: Option<ListId>, class: Class) -> bool
    ensures { IsTrue result ↔ EachPermitted net.now list class }
{
    let permitted = permitted(net, list);
    let denied = Asked {
        entries: permitted.entries,
        answer: !permitted.answer,
    };
    none_gets(&denied, class)
}

/// Whether the lists at both ends of the arc permit the packet.
pub fn arc_permits(net: &Network, arc: &ArcRows<'_>, packet: Packet) -> bool
    ensures { IsTrue result ↔ ArcPermits net.now (arc_of arc.now) packet }
{
    net.list_permits(arc.tail.list_out, packet) && net.list_permits(arc.head.list_in, packet)
}

/// Whether the lists at both ends of the arc permit each packet of the class.
pub fn arc_permits_each(net: &Network, arc: &ArcRows<'_>, class: Class) -> bool
    ensures { IsTrue result ↔ ArcPermitsEach net.now class (arc_of arc.now) }
{
    permits_each(net, arc.tail.list_out, class) && permits_each(net, arc.head.list_in, class)
}

impl Case<'_> {
    /// Whether each routed arc permits each packet of the policy.
    fn each_permits(&self) -> bool
        requires { CaseHolds self.now }
        ensures { IsTrue result ↔ EachRouted self.now.net.now self.now.to
            (ArcPermitsEach self.now.net.now self.now.whole) }
    {
        self.first_routed(|arc| !arc_permits_each(self.net, &arc, self.whole))
            .is_none()
    }

    /// Whether the policy is clear: no routed arc denies a packet of it, or both its ends are at
    /// one router.
    pub fn is_clear(&self) -> bool
        requires { CaseHolds self.now }
        ensures { IsTrue result ↔ IsClear self.now.net.now (ends_in self.now) self.now.whole }
    {
        self.is_local() || self.each_permits()
    }
}

/// Whether a reach policy with these prefixes is clear: no list at either end of a routed arc
/// denies a packet of it, or the packets enter and leave at one router.
pub fn clear(net: &Network, policy: &Policy) -> bool
    requires valid { IsValid net.now }
    requires ends { HasEnds net.now (subject policy.now) }
    ensures { (ends : Ends) → AreEnds net.now (subject policy.now) ends →
        IsTrue result ↔ IsClear net.now ends (subject policy.now) }
{
    Case::of(net, policy).is_clear()
}
