//! Classes as boxes of addresses and services: whether two meet, and whether one splits another.
ghost use Rattle.arc_base.specs.Addresses.{size};
ghost use Rattle.net_model.specs.Packets.{ShareNoPacket};
ghost use Rattle.std.specs.Prelude.{◌≡◌, ◌↔◌, ◌<◌, ◌≤◌, ◌+◌, ◌^◌, IsTrue};
ghost use Rattle.witness_check.specs.Boxes.{prefixes_meet, classes_meet, entry_class};
ghost use Rattle.witness_check.specs.Boxes.{splits_services, splits, AreHalves, AreServiceHalves};
ghost use Rattle.witness_check.specs.Boxes.{MakeUp, service_bits, open_bits};

use arc_base::Prefix;
use net_model::{Class, PacketEntry, Service};

/// The number of the prefix's addresses.
pub(crate) fn size(p: Prefix) -> u64
    ensures size { result ≡ size p }
    ensures fits { result ≤ 2 ^ 32 }
{
    1u64 << (32 - p.len)
}

/// Whether the two prefixes share an address.
fn prefixes_meet(p: Prefix, q: Prefix) -> bool
    ensures { result ≡ prefixes_meet p q }
{
    p.inside(&q) || q.inside(&p)
}

/// Whether the two classes share a packet.
pub(crate) fn classes_meet(one: Class, other: Class) -> bool
    ensures { result ≡ classes_meet one other }
{
    prefixes_meet(one.from, other.from)
        && prefixes_meet(one.to, other.to)
        && one.service.meets(&other.service)
}

/// Whether no packet is of both classes.
pub(crate) fn share_none(one: Class, other: Class) -> bool
    ensures { IsTrue result ↔ ShareNoPacket one other }
{
    !classes_meet(one, other)
}

/// The class of the packets that the entry matches.
pub fn entry_class(entry: &PacketEntry) -> Class
    ensures { result ≡ entry_class entry.now }
{
    Class {
        from: entry.from,
        to: entry.to,
        service: entry.service,
    }
}

/// Whether the other range begins or ends between two services of this one.
fn splits_services(range: Service, other: Service) -> bool
    ensures { result ≡ splits_services range other }
{
    range.low < other.low && other.low <= range.high
        || range.low <= other.high && other.high < range.high
}

/// Whether one of the other class's prefixes is the longer one, or its range of services begins or
/// ends inside the class's. If not, and they share a packet, the class lies in the other.
pub fn splits(class: Class, other: Class) -> bool
    ensures { result ≡ splits class other }
{
    class.from.len < other.from.len
        || class.to.len < other.to.len
        || splits_services(class.service, other.service)
}

/// The two halves of the prefix, the lower one first.
fn halves(whole: Prefix) -> (Prefix, Prefix)
    requires { whole.len < 32 }
    ensures halves { AreHalves whole result.0 result.1 }
    ensures first { result.0.len ≡ whole.len + 1 }
    ensures second { result.1.len ≡ whole.len + 1 }
{
    let len = whole.len + 1;
    let low = Prefix {
        addr: whole.addr,
        len,
    };
    let high = Prefix {
        addr: whole.addr + (1u32 << (32 - len)),
        len,
    };
    (low, high)
}

/// The two halves of the prefix. Where it has the address, the half that has it comes first.
fn halves_towards(whole: Prefix, address: u32) -> (Prefix, Prefix)
    requires { whole.len < 32 }
    ensures halves { AreHalves whole result.0 result.1 }
    ensures first { result.0.len ≡ whole.len + 1 }
    ensures second { result.1.len ≡ whole.len + 1 }
{
    let (low, high) = halves(whole);
    if low.covers(address) {
        (low, high)
    } else {
        (high, low)
    }
}

/// The lower and the upper half of the range of services. Where their number is odd the lower one
/// has one more.
fn service_halves(whole: Service) -> (Service, Service)
    requires { whole.low < whole.high }
    ensures halves { AreServiceHalves whole result.0 result.1 }
    ensures first { service_bits result.0 < service_bits whole }
    ensures second { service_bits result.1 < service_bits whole }
{
    let last = whole.low + (whole.high - whole.low) / 2;
    let low = Service {
        low: whole.low,
        high: last,
    };
    let high = Service {
        low: last + 1,
        high: whole.high,
    };
    (low, high)
}

/// The two halves of the range of services. Where it has the service, the half that has it comes
/// first.
fn service_halves_towards(whole: Service, service: u32) -> (Service, Service)
    requires { whole.low < whole.high }
    ensures halves { AreServiceHalves whole result.0 result.1 }
    ensures first { service_bits result.0 < service_bits whole }
    ensures second { service_bits result.1 < service_bits whole }
{
    let (low, high) = service_halves(whole);
    if low.covers(service) {
        (low, high)
    } else {
        (high, low)
    }
}

/// The two halves of the class, cut where the other class splits it. The first packet of the other
/// class comes first.
///
/// A range of services is cut in the middle, as prefixes are, and not at an end of the other range:
/// so no class is halved more than 88 times over, and calls that halve nest no deeper than that.
pub fn halve_towards(class: Class, other: Class) -> (Class, Class)
    requires { IsTrue (splits class other) }
    ensures whole { MakeUp class result.0 result.1 }
    ensures first { open_bits result.0 < open_bits class }
    ensures second { open_bits result.1 < open_bits class }
{
    if class.from.len < other.from.len {
        let (first, second) = halves_towards(class.from, other.from.addr);
        return (
            Class {
                from: first,
                ..class
            },
            Class {
                from: second,
                ..class
            },
        );
    }
    if class.to.len < other.to.len {
        let (first, second) = halves_towards(class.to, other.to.addr);
        return (
            Class { to: first, ..class },
            Class {
                to: second,
                ..class
            },
        );
    }
    let (first, second) = service_halves_towards(class.service, other.service.low);
    (
        Class {
            service: first,
            ..class
        },
        Class {
            service: second,
            ..class
        },
    )
}
