//! The interfaces at which the packets of a class enter and leave.
ghost use Rattle.class_graph.specs.Classes.{AreAllUniform};
ghost use Rattle.class_graph.specs.Hosts.{IsOpenTo, Admits, IsHostPair, IsHostPairOf};
ghost use Rattle.class_graph.specs.LastGraphs.{IsGraphOfTable};
ghost use Rattle.class_graph.specs.Passing.{AllPass, IsFirstKeptOut};
ghost use Rattle.net_model.specs.Forwarding.{Ends, HasEnds, Enters, Leaves};
ghost use Rattle.net_model.specs.Packets.{IsOfClass};
ghost use Rattle.net_model.specs.Witnesses.{IsUniformFor};
ghost use Rattle.net_model.specs.declared.lists.Packet.{Packet as AnyPacket};
ghost use Rattle.std.specs.Prelude.{◌↔◌, IsTrue, length, IfOk, IfSome, IfNone};

use crate::answers::allows;
use crate::last_graph::LastGraph;
use crate::same_routes::routed_by;
use arc_base::{List, ListId, Memory, Prefix, Router};
use net_model::{Class, Network, Packet, RoutedLink};
use std::alloc::Global;

/// An interface at which packets enter or leave: its router, whether it is up, and the list that
/// they meet there.
#[derive(Clone, Copy, Debug)]
pub struct End {
    pub router: Router,
    pub up: bool,
    pub list: Option<ListId>,
}

/// What all classes from one host network to another share.
#[derive(Debug, Drop)]
pub struct HostPair {
    /// Where packets enter.
    pub source: End,
    /// Where packets leave.
    pub target: End,
    /// The host network that they are routed to.
    pub to: Prefix,
    /// For each link, whether its arcs are routed there.
    pub routed: List<RoutedLink>,
}

impl End {
    /// Whether the interface is up, and its list answers yes.
    pub(crate) fn is_open(&self, answers: &List<bool>) -> bool
        ensures { IsTrue result ↔ IsOpenTo answers.now self.now }
    {
        self.up && allows(answers, self.list)
    }

    /// Whether the interface is up, and its list permits the packet.
    fn admits(&self, net: &Network, packet: Packet) -> bool
        ensures { IsTrue result ↔ Admits net.now self.now packet }
    {
        self.up && net.list_permits(self.list, packet)
    }
}

impl HostPair {
    /// Whether the packets of a class enter and leave.
    pub fn lets_through(&self, net: &Network, class: Class) -> bool
        requires { IsUniformFor net.now class }
        ensures { (ends : Ends) → IsHostPair net.now ends self.now → IsTrue result ↔
            ((p : AnyPacket) → IsOfClass class p → Enters net.now ends p × Leaves net.now ends p) }
    {
        self.admits(net, class.first_packet())
    }

    /// The first class with a packet that does not enter or does not leave.
    pub fn first_kept_out(&self, net: &Network, classes: &List<Class>) -> Option<Class>
        requires { AreAllUniform net.now classes.now }
        ensures found { IfSome result (λ class. (ends : Ends) → IsHostPair net.now ends self.now →
            IsFirstKeptOut net.now ends classes.now class) }
        ensures none { IfNone result ((ends : Ends) → IsHostPair net.now ends self.now →
            AllPass net.now ends classes.now (length classes.now)) }
    {
        for class in classes.slice() {
            if !self.lets_through(net, *class) {
                return Some(*class);
            }
        }
        None
    }

    /// Whether both interfaces are up, and their lists permit the packet.
    fn admits(&self, net: &Network, packet: Packet) -> bool
        ensures { IsTrue result ↔
            (Admits net.now self.now.source packet × Admits net.now self.now.target packet) }
    {
        self.source.admits(net, packet) && self.target.admits(net, packet)
    }
}

/// What the class shares with all classes between the same two host networks. Which arcs are routed
/// is not asked again where the network answers the same of the host network as of that of the last
/// graph.
pub fn host_pair(
    alloc: Global,
    net: &Network,
    class: Class,
    last: &Option<LastGraph>,
) -> Result<HostPair, Memory>
    requires ends { HasEnds net.now class }
    requires last { IfSome last.now (IsGraphOfTable net.now) }
    ensures { IfOk result (IsHostPairOf net.now class) }
{
    let source = net.host_face(class.from);
    let target = net.host_face(class.to);
    let Some(to) = target.host else {
        unreachable!()
    };
    let routed = routed_by(alloc, net, target, to, last)?;
    Ok(HostPair {
        source: End {
            router: source.router,
            up: source.up,
            list: source.list_in,
        },
        target: End {
            router: target.router,
            up: target.up,
            list: target.list_out,
        },
        to,
        routed,
    })
}
