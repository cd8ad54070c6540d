//! Networks as tables of rows: routers, interfaces, links, sessions and lists.

use crate::lists::{PacketList, RouteList};
use arc_base::{Face, List, ListId, Name, Prefix, Router};

/// The routing protocol that all routers of a network run.
#[derive(Clone, Copy, Debug, PartialEq, Eq)]
pub enum Protocol {
    /// OSPF version 2 in one area (RFC 2328).
    Ospf,
    /// External BGP-4 (RFC 4271), each router with an AS of its own.
    Bgp,
}

/// A router: one configuration file.
#[derive(Debug, Drop)]
pub struct RouterRow {
    /// Its host name.
    pub name: Name,
    /// The number of its AS, and 0 under OSPF.
    pub asn: u32,
    /// The names that its file gives to a list, with or without entries, or binds somewhere, in
    /// byte order.
    pub names: List<Name>,
}

/// An interface of a router.
#[derive(Debug, Drop)]
pub struct FaceRow {
    pub router: Router,
    /// Its whole name, as `GigabitEthernet0/1`.
    pub name: Name,
    /// Its own address.
    pub addr: Option<u32>,
    /// The connected subnet: the prefix of its address and mask.
    pub subnet: Option<Prefix>,
    /// The host network, at an interface that is no link's end: the connected subnet, or the /32 of
    /// the own address where OSPF advertises just that (a loopback; RFC 2328, section 9.1).
    pub host: Option<Prefix>,
    /// Whether it is not shut down.
    pub up: bool,
    /// Whether it runs OSPF. Under BGP it means nothing.
    pub enabled: bool,
    /// Whether the router advertises the host network to the other routers.
    pub told: bool,
    /// Whether it is passive: its subnet is advertised, and it forms no adjacency.
    pub passive: bool,
    /// The cost of sending a packet out of it under OSPF, from 1 to 65535 (RFC 2328, appendix C.3).
    pub cost: u32,
    /// Whether a packet list is bound inbound, even if it is not defined.
    pub bound_in: bool,
    /// The packet list that is bound inbound, if it is defined. A list without entries is not, and
    /// permits every packet.
    pub list_in: Option<ListId>,
    /// The packet list that is bound outbound, if it is defined.
    pub list_out: Option<ListId>,
}

/// The BGP session of an interface with the one neighbour that is configured over it.
#[derive(Debug, Drop)]
pub struct SessionRow {
    pub face: Face,
    /// The address of the neighbour.
    pub peer: u32,
    /// The AS that the neighbour must have (RFC 4271, section 6.2).
    pub remote: u32,
    /// Whether the neighbour is shut down.
    pub down: bool,
    /// Whether a route list is bound inbound, even if it is not defined.
    pub bound: bool,
    /// The route list that is bound inbound, if it is defined. Without one each route is accepted.
    pub filter: Option<ListId>,
}

/// A link between interfaces of two routers. When it fails, it fails in both directions.
#[derive(Clone, Copy, Debug)]
pub struct LinkRow {
    pub a: Face,
    pub b: Face,
    /// Whether a packet that goes over it has gone through a waypoint.
    pub waypoint: bool,
}

/// The network of a document and its router files. `Router`, `Face`, `Link` and `ListId` are places
/// in its lists, counted from 0.
#[derive(Debug, Drop)]
pub struct Network {
    pub protocol: Protocol,
    /// In the order of the document.
    pub routers: List<RouterRow>,
    /// By router, and then in the order of the file.
    pub faces: List<FaceRow>,
    /// One for each configured neighbour, by router, and then in the order of their links.
    pub sessions: List<SessionRow>,
    /// In the order of the document.
    pub links: List<LinkRow>,
    /// The lists that are bound to an interface and defined, by router, and then in byte order of
    /// names.
    pub packet_lists: List<PacketList>,
    /// The lists that are bound to a session and defined, by router, and then in byte order of
    /// names.
    pub route_lists: List<RouteList>,
}
