//! Protocols and destination ports as router files write them.
ghost use Rattle.ios_words.specs.NameRows.{row_of, name_at};
ghost use Rattle.ios_words.specs.ServiceRanges.{services_of};
ghost use Rattle.ios_words.specs.Services.{protocol_names, port_names, number_named, protocol_of};
ghost use Rattle.ios_words.specs.Services.{port_of, has_ports};
ghost use Rattle.std.specs.Option.{option_map};
ghost use Rattle.std.specs.Prelude.{◌≡◌, ◌≤◌, map, IfSome};

use crate::numbers::number_in;
use crate::services::Services;

/// A number and its name.
#[derive(Clone, Copy, Debug)]
pub(crate) struct Named {
    pub(crate) number: u16,
    pub(crate) name: &'static [u8],
}

/// A number and its name.
macro_rules! named {
    ($number:literal, $name:literal) => {
        Named {
            number: $number,
            name: $name,
        }
    };
}

/// The protocols that have names (numbers as IANA assigns them).
const PROTOCOLS: &[Named] = &[
    named!(1, b"icmp"),
    named!(2, b"igmp"),
    named!(6, b"tcp"),
    named!(17, b"udp"),
    named!(47, b"gre"),
    named!(50, b"esp"),
    named!(89, b"ospf"),
];

/// The ports of TCP that have names.
const TCP_PORTS: &[Named] = &[
    named!(20, b"ftp-data"),
    named!(21, b"ftp"),
    named!(23, b"telnet"),
    named!(25, b"smtp"),
    named!(53, b"domain"),
    named!(80, b"www"),
    named!(110, b"pop3"),
    named!(179, b"bgp"),
];

/// The ports of UDP that have names.
const UDP_PORTS: &[Named] = &[
    named!(53, b"domain"),
    named!(67, b"bootps"),
    named!(68, b"bootpc"),
    named!(69, b"tftp"),
    named!(123, b"ntp"),
    named!(161, b"snmp"),
    named!(162, b"snmptrap"),
    named!(514, b"syslog"),
];

/// The protocols that have names.
fn protocol_names() -> &'static [Named]
    ensures { map row_of result.now ≡ protocol_names }
{
    PROTOCOLS
}

/// The ports of a protocol that have names.
fn port_names(number: u32) -> &'static [Named]
    ensures { map row_of result.now ≡ port_names number }
{
    if number == 6 {
        TCP_PORTS
    } else if number == 17 {
        UDP_PORTS
    } else {
        &[]
    }
}

/// The number beside a name, where the name is there.
fn number_named(rows: &[Named], word: &[u8]) -> Option<u32>
    ensures number { result ≡ number_named (map row_of rows.now) word.now }
    ensures few { IfSome result (λ number. number ≤ 65535) }
{
    for row in rows {
        if word == row.name {
            return Some(u32::from(row.number));
        }
    }
    None
}

/// The name of a protocol, where it has one.
pub(crate) fn protocol_name(number: u32) -> Option<&'static [u8]>
    ensures { option_map (λ name. name.now) result ≡ name_at protocol_names number }
{
    for row in protocol_names() {
        if u32::from(row.number) == number {
            return Some(row.name);
        }
    }
    None
}

/// Whether a protocol has ports.
pub(crate) fn has_ports(number: u32) -> bool
    ensures { result ≡ has_ports number }
{
    number == 6 || number == 17
}

/// The protocol that a word writes, as a name or a number.
fn protocol_of(word: &[u8]) -> Option<u32>
    ensures protocol { result ≡ protocol_of word.now }
    ensures few { IfSome result (λ number. number ≤ 255) }
{
    match number_named(protocol_names(), word) {
        Some(number) => Some(number),
        None => number_in(word, 1, 255),
    }
}

/// The port of a protocol that a word writes, as a name or a number.
pub(crate) fn port_of(number: u32, word: &[u8]) -> Option<u32>
    ensures port { result ≡ port_of number word.now }
    ensures few { IfSome result (λ port. port ≤ 65535) }
{
    match number_named(port_names(number), word) {
        Some(port) => Some(port),
        None => number_in(word, 0, 65535),
    }
}

/// The services of a protocol's word: `ip` is all.
pub(crate) fn services_of(word: &[u8]) -> Option<Services>
    ensures { result ≡ services_of word.now }
{
    if word == b"ip".as_slice() {
        return Some(Services::whole());
    }
    Some(Services::of_ports(protocol_of(word)?, 0, 65535))
}
