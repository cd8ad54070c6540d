//! What one line of a router file says.
ghost use Rattle.std.specs.Prelude.{◌≤◌, ◌<◌, ◌^◌};

use arc_base::{Name, Prefix};

/// What one line says: one variant for each row of the language that is not inert, and one for all
/// that are.
#[derive(Debug, Drop)]
pub enum Command {
    /// The name of the router.
    Hostname(Name),
    /// The head of an interface's block.
    Interface(Name),
    /// The head of an OSPF process, with its number.
    RouterOspf(u32),
    /// The head of a BGP process, with its autonomous system.
    RouterBgp(u32),
    /// The head of a list's block: true for an extended list.
    ListBlock(bool, Name),
    /// An entry of a numbered list, with the list's number as it is written.
    ListLine(Name, PacketText),
    /// An entry of a prefix list, with the number after `seq`.
    PrefixLine(Name, Option<u32>, RouteText),
    /// An interface's address, and the length of its mask.
    Address(u32, u8),
    NoAddress,
    /// Whether the interface is shut down.
    Shutdown(bool),
    /// In kbit/s.
    Bandwidth(u32),
    /// The OSPF cost of the interface.
    Cost(u32),
    /// OSPF is enabled on the interface.
    Area(AreaText),
    /// The OSPF network type: true for point-to-point, false for broadcast.
    Point(bool),
    /// A packet list is bound: true for inbound.
    Group(Name, bool),
    /// The addresses whose interfaces take part in OSPF, and their area.
    Covers(Prefix, u32),
    /// Whether the interface is passive, or each one where none is named.
    Passive(bool, Option<Name>),
    /// The reference bandwidth in Mbit/s.
    Reference(u32),
    RouterId(u32),
    /// A neighbour's address and its autonomous system.
    RemoteAs(u32, u32),
    /// A neighbour's address, and whether it is shut down.
    NeighborDown(u32, bool),
    /// A neighbour's address, and the prefix list that filters what it advertises.
    NeighborList(u32, Name),
    /// A network that BGP advertises.
    Tells(Prefix),
    /// An entry of the list whose block it is in, with the number before it.
    Entry(Option<u32>, PacketText),
    Inert,
}

/// An entry of a packet list. In a standard list `to` has length 0.
#[derive(Clone, Copy, Debug, PartialEq, Eq)]
pub struct PacketText {
    pub permit: bool,
    pub from: Prefix,
    pub to: Prefix,
    /// The first of its services: the protocol's number times 65,536, plus the destination port.
    pub low: u32,
    /// The last of its services; 16,777,215 with a first of 0 in an entry for all protocols.
    pub high: u32,
    pub ghost ordered: { low ≤ high },
    pub ghost in_range: { high < 2 ^ 24 },
}

/// An entry of a prefix list: the prefixes inside `prefix` whose length is from `low` to `high`.
#[derive(Clone, Copy, Debug, PartialEq, Eq)]
pub struct RouteText {
    pub permit: bool,
    pub prefix: Prefix,
    pub low: u8,
    pub high: u8,
}

/// The process and the area that an interface names.
#[derive(Clone, Copy, Debug, PartialEq, Eq)]
pub struct AreaText {
    pub process: u32,
    pub area: u32,
}
