//! The rows of lines of an interface, by their first letters.
ghost use Rattle.ios_words.specs.Candidates.{has_letter, follows_ip};
ghost use Rattle.ios_words.specs.Language.{rows};
ghost use Rattle.std.specs.List.{list_all};
ghost use Rattle.std.specs.Prelude.{◌≡◌, IsTrue, filter, map};
ghost use Rattle.ios_words.specs.declared.kinds.BlockKind.TheVariants as blocks;
ghost use Rattle.ios_words.specs.Rows.{rule_of};
ghost use Rattle.ios_words.specs.Trials.{is_short};

use crate::rows::Form::{Address, Area, Mask, Name, Number};
use crate::rows::Part::{Place, Word};
use crate::rows::{Meaning, Part, Row, inert, row};

const INTERFACE_B: &[Row] = &[row!(Bandwidth: Word(b"bandwidth"), Place(Number(1, 100000000)))];

const INTERFACE_C: &[Row] = &[
    inert!(b"clock", b"rate"),
    inert!(b"cdp"),
    inert!(b"carrier-delay"),
];

const INTERFACE_L: &[Row] = &[
    inert!(b"load-interval"),
    inert!(b"lldp"),
    inert!(b"logging"),
];

const INTERFACE_N: &[Row] = &[
    inert!(b"negotiation"),
    inert!(b"no", b"keepalive"),
    inert!(b"no", b"cdp"),
    inert!(b"no", b"lldp"),
    inert!(b"no", b"mop"),
    inert!(b"no", b"fair-queue"),
    inert!(b"no", b"ip", b"redirects"),
    inert!(b"no", b"ip", b"unreachables"),
    inert!(b"no", b"ip", b"proxy-arp"),
    inert!(b"no", b"ip", b"directed-broadcast"),
    inert!(b"no", b"ip", b"route-cache"),
    row!(NoAddress: Word(b"no"), Word(b"ip"), Word(b"address")),
    row!(NoShutdown: Word(b"no"), Word(b"shutdown")),
];

const INTERFACE_S: &[Row] = &[
    inert!(b"speed"),
    inert!(b"serial", b"restart-delay"),
    inert!(b"snmp", b"trap"),
    row!(Shutdown: Word(b"shutdown")),
];

const INTERFACE_IP_A: &[Row] = &[
    row!(Address: Word(b"ip"), Word(b"address"), Place(Address), Place(Mask(1))),
    row!(GroupIn: Word(b"ip"), Word(b"access-group"), Place(Name), Word(b"in")),
    row!(GroupOut: Word(b"ip"), Word(b"access-group"), Place(Name), Word(b"out")),
];

const INTERFACE_IP_O: &[Row] = &[
    row!(Cost: Word(b"ip"), Word(b"ospf"), Word(b"cost"), Place(Number(1, 65535))),
    row!(Area: Word(b"ip"), Word(b"ospf"), Place(Number(1, 65535)), Word(b"area"), Place(Area)),
    row!(PointToPoint: Word(b"ip"), Word(b"ospf"), Word(b"network"), Word(b"point-to-point")),
    row!(Broadcast: Word(b"ip"), Word(b"ospf"), Word(b"network"), Word(b"broadcast")),
];

/// The rows whose first word is not `ip` and begins with this letter.
pub(crate) fn interface_rows(letter: u8) -> &'static [Row]
    ensures rows { map rule_of result.now ≡ filter (has_letter letter) (rows blocks.Interface) }
    ensures short { IsTrue (list_all is_short (map rule_of result.now)) }
{
    match letter {
        b'a' => &[inert!(b"arp", b"timeout")],
        b'b' => INTERFACE_B,
        b'c' => INTERFACE_C,
        b'd' => &[inert!(b"description"), inert!(b"duplex"), inert!(b"delay")],
        b'h' => &[inert!(b"hold-queue")],
        b'l' => INTERFACE_L,
        b'm' => &[inert!(b"media-type"), inert!(b"mop")],
        b'n' => INTERFACE_N,
        b's' => INTERFACE_S,
        _ => &[],
    }
}

/// The rows whose first word is `ip` and whose second begins with this letter.
pub(crate) fn interface_ip_rows(letter: u8) -> &'static [Row]
    ensures rows { map rule_of result.now ≡ filter (follows_ip letter) (rows blocks.Interface) }
    ensures short { IsTrue (list_all is_short (map rule_of result.now)) }
{
    match letter {
        b'a' => INTERFACE_IP_A,
        b'o' => INTERFACE_IP_O,
        b'r' => &[inert!(b"ip", b"route-cache")],
        b'v' => &[inert!(b"ip", b"virtual-reassembly")],
        _ => &[],
    }
}
