//! Documents: policies, traffic classes, and the weights of edits.
ghost use Rattle.net_model.specs.Packets.{first_packet, subject};
ghost use Rattle.std.specs.Prelude.{◌≡◌};

use crate::lists::Packet;
use crate::services::Service;
use arc_base::{List, Name, Prefix};

/// A traffic class: the packets from one prefix to another of a range of services.
#[derive(Clone, Copy, Debug, PartialEq, Eq)]
pub struct Class {
    /// The prefix of the source addresses.
    pub from: Prefix,
    /// The prefix of the destination addresses.
    pub to: Prefix,
    pub service: Service,
}

impl Class {
    /// The packet of its first addresses and its first service.
    pub fn first_packet(self) -> Packet
        ensures { result ≡ first_packet self }
    {
        Packet {
            from: self.from.addr,
            to: self.to.addr,
            service: self.service.low,
        }
    }
}

/// What a policy asks of its packets.
#[derive(Clone, Copy, Debug, PartialEq, Eq)]
pub enum PolicyKind {
    /// None is ever delivered, whichever links fail.
    Blocked,
    /// Each that is delivered has crossed a waypoint link, whichever links fail.
    Through,
    /// Each is delivered while at most this many links fail.
    Reach(u32),
}

/// A policy on every packet from one prefix to another of a range of services. The prefixes lie in
/// different host networks.
#[derive(Clone, Copy, Debug, PartialEq, Eq)]
pub struct Policy {
    pub kind: PolicyKind,
    pub from: Prefix,
    pub to: Prefix,
    pub service: Service,
}

impl Policy {
    /// All packets that it is about.
    pub fn subject(&self) -> Class
        ensures { result ≡ subject self.now }
    {
        Class {
            from: self.from,
            to: self.to,
            service: self.service,
        }
    }
}

/// What an edit of each kind costs, from 1 to `limits::WEIGHT_LIMIT`.
#[derive(Clone, Copy, Debug, PartialEq, Eq)]
pub struct Weights {
    /// An entry of a packet list.
    pub list: u32,
    /// An entry of a route list.
    pub filter: u32,
    /// A passive interface or a neighbour's shutdown.
    pub session: u32,
}

/// A link as the document names it: at each end a router's host name and an interface of it.
#[derive(Debug, Drop)]
pub struct LinkText {
    pub a_router: Name,
    pub a_face: Name,
    pub b_router: Name,
    pub b_face: Name,
    pub waypoint: bool,
}

/// The document: it names the router files, and gives the links, the policies and the weights of
/// edits.
#[derive(Debug, Drop)]
pub struct Document {
    /// The names of the router files.
    pub routers: List<Name>,
    pub links: List<LinkText>,
    pub policies: List<Policy>,
    pub weights: Weights,
}
