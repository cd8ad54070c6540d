//! Whether a packet list denies a packet that the routing protocol needs.
ghost use Rattle.net_checks.specs.SessionPackets.{MissesUntil, PermitsUntil, DeniesBetween};
ghost use Rattle.net_checks.specs.SessionPackets.{DeniesAt};
ghost use Rattle.net_model.specs.Lists.{matches, permits};
ghost use Rattle.net_rules.specs.Stops.{Denies};
ghost use Rattle.std.specs.Prelude.{◌<◌, ◌≤◌, ◌^◌, ◌↔◌, IsTrue, IsFalse, IsNone, IfSome};

use net_model::{Packet, PacketEntry, PacketList, Protocol};

/// The address of all OSPF routers, 224.0.0.5 (RFC 2328, appendix A.1).
const ALL_ROUTERS: u32 = 0xe000_0005;

/// The address of all designated OSPF routers, 224.0.0.6.
const ALL_DESIGNATED: u32 = 0xe000_0006;

/// The first service of OSPF, which is protocol 89.
const OSPF: u32 = 89 * 0x1_0000;

/// The first service of TCP, which is protocol 6: that for port 0.
const TCP: u32 = 6 * 0x1_0000;

/// The port on which BGP listens (RFC 4271).
const BGP_PORT: u32 = 179;

/// The first of the ports from which a router opens a connection.
const OWN_PORTS: u32 = 1024;

const LAST_PORT: u32 = 0xffff;

/// Up to which service, itself left out and at most `end`, the entry matches no packet of these
/// addresses, from the packet's own service on, which it does not match.
fn misses_until(entry: &PacketEntry, packet: Packet, end: u32) -> u32
    requires missed { IsFalse (matches packet entry.now) }
    requires later { packet.service < end }
    ensures misses { MissesUntil entry.now packet result }
    ensures end { result ≤ end }
{
    let begin = entry.service.low;
    if packet.service < begin
        && begin < end
        && entry.from.covers(packet.from)
        && entry.to.covers(packet.to)
    {
        begin
    } else {
        end
    }
}

/// Up to which service, itself left out and at most `end`, the list permits all packets of these
/// addresses, from the packet's own service on; `None` where it denies the packet.
fn permits_until(list: &PacketList, packet: Packet, end: u32) -> Option<u32>
    requires { packet.service < end }
    ensures denied { IsNone result → IsFalse (permits list.now.entries packet) }
    ensures permitted { IfSome result (PermitsUntil list.now.entries packet) }
{
    let mut next = end;
    for entry in list.entries.slice() {
        if entry.matches(packet) {
            if entry.permit {
                return Some(next.min(entry.service.high + 1));
            }
            return None;
        }
        next = misses_until(entry, packet, next);
    }
    None
}

/// Whether the list denies a packet from the one address to the other of a service from `low` to
/// `high`.
fn denies_between(list: &PacketList, from: u32, to: u32, low: u32, high: u32) -> bool
    requires { high < 2 ^ 24 }
    ensures { IsTrue result ↔ DeniesBetween list.now.entries from to low high }
{
    let mut service = low;
    while service <= high {
        let packet = Packet { from, to, service };
        match permits_until(list, packet, high + 1) {
            Some(next) => service = next,
            None => return true,
        }
    }
    false
}

/// Whether the list denies a packet that the protocol needs from the one address to the other.
fn denies_at(protocol: Protocol, list: &PacketList, from: u32, to: u32) -> bool
    ensures { IsTrue result ↔ DeniesAt protocol list.now.entries from to }
{
    match protocol {
        Protocol::Ospf => denies_between(list, from, to, OSPF, OSPF + LAST_PORT),
        Protocol::Bgp => {
            denies_between(list, from, to, TCP + BGP_PORT, TCP + BGP_PORT)
                || denies_between(list, from, to, TCP + OWN_PORTS, TCP + LAST_PORT)
        }
    }
}

/// Whether the list denies a packet that the protocol needs from the one address to the other's
/// interface.
pub fn denies(protocol: Protocol, list: &PacketList, from: u32, own: u32) -> bool
    ensures { IsTrue result ↔ Denies protocol list.now.entries from own }
{
    if denies_at(protocol, list, from, own) {
        return true;
    }
    match protocol {
        Protocol::Bgp => false,
        Protocol::Ospf => {
            denies_at(protocol, list, from, ALL_ROUTERS)
                || denies_at(protocol, list, from, ALL_DESIGNATED)
        }
    }
}
