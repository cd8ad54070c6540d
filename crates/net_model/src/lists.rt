//! Packets, and the lists that filter them and routes. A list answers by its first entry that
//! matches.
ghost use Rattle.std.specs.Option.{option_copied};
ghost use Rattle.std.specs.Prelude.{◌≡◌, find};

use crate::services::Service;
use arc_base::{List, Name, Prefix, Router};

/// A packet, as far as routers look at it.
#[derive(Clone, Copy, Debug, PartialEq, Eq)]
pub struct Packet {
    /// The source address.
    pub from: u32,
    /// The destination address.
    pub to: u32,
    /// The protocol and the destination port, as `Service` counts them.
    pub service: u32,
}

/// An entry of a packet list, for the packets whose addresses lie in its prefixes and whose service
/// lies in its range.
#[derive(Clone, Copy, Debug, PartialEq, Eq)]
pub struct PacketEntry {
    pub permit: bool,
    /// The prefix of the source address.
    pub from: Prefix,
    /// The prefix of the destination address; of length 0 in an entry about sources alone.
    pub to: Prefix,
    /// The services; the whole range in an entry about addresses alone.
    pub service: Service,
}

/// A packet list (an access list) of a router, which filters packets at the interfaces that it is
/// bound to.
#[derive(Debug, Drop)]
pub struct PacketList {
    pub router: Router,
    pub name: Name,
    /// Whether it is an extended list, whose entries are about sources and destinations.
    pub extended: bool,
    pub entries: List<PacketEntry>,
}

/// An entry of a route list: for the prefixes inside `prefix` whose length is from `low` to `high`.
#[derive(Clone, Copy, Debug, PartialEq, Eq)]
pub struct RouteEntry {
    pub permit: bool,
    pub prefix: Prefix,
    pub low: u8,
    pub high: u8,
}

/// A route list (a prefix list) of a router, which filters the routes that the sessions it is bound
/// to take in.
#[derive(Debug, Drop)]
pub struct RouteList {
    pub router: Router,
    pub name: Name,
    pub entries: List<RouteEntry>,
}

impl PacketEntry {
    ghost use Rattle.net_model.specs.Lists.{matches};

    /// Whether both addresses of the packet lie in the entry's prefixes, and its service in the
    /// entry's range.
    pub fn matches(&self, packet: Packet) -> bool
        ensures { result ≡ matches packet self.now }
    {
        self.from.covers(packet.from)
            && self.to.covers(packet.to)
            && self.service.covers(packet.service)
    }
}

impl RouteEntry {
    ghost use Rattle.net_model.specs.Lists.{route_matches};

    /// Whether the prefix lies inside the entry's, with a length in its range.
    pub fn matches(&self, route: Prefix) -> bool
        ensures { result ≡ route_matches route self.now }
    {
        route.inside(&self.prefix) && self.low <= route.len && route.len <= self.high
    }
}

impl PacketList {
    ghost use Rattle.net_model.specs.Lists.{matches, permits};

    /// The first entry that matches the packet.
    fn deciding(&self, packet: Packet) -> Option<&PacketEntry>
        ensures { option_copied result ≡ find (matches packet) self.now.entries }
    {
        self.entries.slice().iter().find(|e| e.matches(packet))
    }

    /// Whether the first entry that matches the packet permits it. Where none matches the packet is
    /// denied.
    pub fn permits(&self, packet: Packet) -> bool
        ensures { result ≡ permits self.now.entries packet }
    {
        match self.deciding(packet) {
            Some(entry) => entry.permit,
            None => false,
        }
    }
}

impl RouteList {
    ghost use Rattle.net_model.specs.Lists.{route_matches, route_permits};

    /// The first entry that matches the prefix.
    fn deciding(&self, route: Prefix) -> Option<&RouteEntry>
        ensures { option_copied result ≡ find (route_matches route) self.now.entries }
    {
        self.entries.slice().iter().find(|e| e.matches(route))
    }

    /// Whether the first entry that matches the prefix permits it. Where none matches the prefix is
    /// denied.
    pub fn permits(&self, route: Prefix) -> bool
        ensures { result ≡ route_permits self.now.entries route }
    {
        match self.deciding(route) {
            Some(entry) => entry.permit,
            None => false,
        }
    }
}
