//! The rows of lines outside blocks, by their first letters.
ghost use Rattle.ios_words.specs.Candidates.{has_letter, follows_ip};
ghost use Rattle.ios_words.specs.Language.{rows};
ghost use Rattle.std.specs.List.{list_all};
ghost use Rattle.std.specs.Prelude.{◌≡◌, IsTrue, filter, map};
ghost use Rattle.ios_words.specs.declared.kinds.BlockKind.TheVariants as blocks;
ghost use Rattle.ios_words.specs.Rows.{rule_of};
ghost use Rattle.ios_words.specs.Trials.{is_short};

use crate::rows::Form::{AtLeast, AtMost, FaceName, ListNumber, Name, Number, Order, Route};
use crate::rows::Part::{
    Anything, Destination, Flag, Option, Place, Ports, Protocol, Source, Verdict, Word,
};
use crate::rows::{Meaning, Part, Row, inert, row};

const TOP_A: &[Row] = &[
    inert!(b"aaa"),
    inert!(b"archive"),
    inert!(b"alias"),
    row!(Inert: Word(b"access-list"), Place(ListNumber), Word(b"remark"), Anything),
    row!(ListLine:
        Word(b"access-list"), Place(ListNumber), Verdict, Protocol, Source, Destination, Ports,
        Flag(b"log")
    ),
];

const TOP_B: &[Row] = &[
    inert!(b"boot"),
    inert!(b"boot-start-marker"),
    inert!(b"boot-end-marker"),
    inert!(b"banner"),
];

const TOP_C: &[Row] = &[
    inert!(b"clock"),
    inert!(b"control-plane"),
    inert!(b"crypto", b"pki"),
    inert!(b"crypto", b"key"),
    inert!(b"cdp"),
];

const TOP_E: &[Row] = &[
    inert!(b"enable"),
    inert!(b"ethernet", b"lmi"),
    inert!(b"end"),
];

const TOP_H: &[Row] = &[
    inert!(b"hw-module"),
    row!(Hostname: Word(b"hostname"), Place(Name)),
];

const TOP_L: &[Row] = &[
    inert!(b"logging"),
    inert!(b"license"),
    inert!(b"line"),
    inert!(b"lldp"),
];

const TOP_M: &[Row] = &[
    inert!(b"memory"),
    inert!(b"memory-size"),
    inert!(b"mmi"),
    inert!(b"multilink"),
    inert!(b"mgcp"),
];

const TOP_N: &[Row] = &[
    inert!(b"no", b"service"),
    inert!(b"no", b"aaa"),
    inert!(b"no", b"logging"),
    inert!(b"ntp"),
    inert!(b"no", b"mmi"),
    inert!(b"no", b"ipv6", b"cef"),
    inert!(b"no", b"ip", b"cef"),
    inert!(b"no", b"ip", b"domain"),
    inert!(b"no", b"ip", b"domain-lookup"),
    inert!(b"no", b"ip", b"http"),
    inert!(b"no", b"ip", b"forward-protocol"),
    inert!(b"no", b"ip", b"source-route"),
    inert!(b"no", b"ip", b"icmp", b"rate-limit"),
    inert!(b"no", b"ip", b"prefix-list", b"sequence-number"),
    inert!(b"no", b"cdp"),
];

const TOP_R: &[Row] = &[
    inert!(b"redundancy"),
    row!(RouterOspf: Word(b"router"), Word(b"ospf"), Place(Number(1, 65535))),
    row!(RouterBgp: Word(b"router"), Word(b"bgp"), Place(Number(1, 4294967295))),
];

const TOP_S: &[Row] = &[
    inert!(b"service"),
    inert!(b"snmp-server"),
    inert!(b"scheduler"),
    inert!(b"spanning-tree"),
    inert!(b"subscriber"),
];

const TOP_IP_A: &[Row] = &[
    row!(ExtendedList: Word(b"ip"), Word(b"access-list"), Word(b"extended"), Place(Name)),
    row!(StandardList: Word(b"ip"), Word(b"access-list"), Word(b"standard"), Place(Name)),
];

const TOP_IP_D: &[Row] = &[
    inert!(b"ip", b"domain"),
    inert!(b"ip", b"domain-name"),
    inert!(b"ip", b"domain-lookup"),
];

const TOP_IP_P: &[Row] = &[
    inert!(b"ip", b"prefix-list", b"sequence-number"),
    row!(Inert: Word(b"ip"), Word(b"prefix-list"), Place(Name), Word(b"description"), Anything),
    row!(PrefixLine:
        Word(b"ip"), Word(b"prefix-list"), Place(Name), Option(b"seq", Order(4294967294)), Verdict,
        Place(Route), Option(b"ge", AtLeast), Option(b"le", AtMost)
    ),
];

const TOP_IP_S: &[Row] = &[
    inert!(b"ip", b"ssh"),
    inert!(b"ip", b"scp"),
    inert!(b"ip", b"subnet-zero"),
    inert!(b"ip", b"source-route"),
];

/// The rows whose first word is not `ip` and begins with this letter.
pub(crate) fn top_rows(letter: u8) -> &'static [Row]
    ensures rows { map rule_of result.now ≡ filter (has_letter letter) (rows blocks.Top) }
    ensures short { IsTrue (list_all is_short (map rule_of result.now)) }
{
    match letter {
        b'B' => &[inert!(b"Building", b"configuration...")],
        b'C' => &[inert!(b"Current", b"configuration")],
        b'a' => TOP_A,
        b'b' => TOP_B,
        b'c' => TOP_C,
        b'd' => &[inert!(b"diagnostic")],
        b'e' => TOP_E,
        b'g' => &[inert!(b"gatekeeper")],
        b'h' => TOP_H,
        b'i' => &[row!(Interface: Word(b"interface"), Place(FaceName))],
        b'l' => TOP_L,
        b'm' => TOP_M,
        b'n' => TOP_N,
        b'p' => &[inert!(b"platform")],
        b'r' => TOP_R,
        b's' => TOP_S,
        b'u' => &[inert!(b"username"), inert!(b"upgrade")],
        b'v' => &[inert!(b"version"), inert!(b"vtp")],
        _ => &[],
    }
}

/// The rows whose first word is `ip` and whose second begins with this letter.
pub(crate) fn top_ip_rows(letter: u8) -> &'static [Row]
    ensures rows { map rule_of result.now ≡ filter (follows_ip letter) (rows blocks.Top) }
    ensures short { IsTrue (list_all is_short (map rule_of result.now)) }
{
    match letter {
        b'a' => TOP_IP_A,
        b'b' => &[inert!(b"ip", b"bgp-community")],
        b'c' => &[inert!(b"ip", b"cef"), inert!(b"ip", b"classless")],
        b'd' => TOP_IP_D,
        b'f' => &[inert!(b"ip", b"forward-protocol")],
        b'h' => &[inert!(b"ip", b"host"), inert!(b"ip", b"http")],
        b'n' => &[inert!(b"ip", b"name-server")],
        b'p' => TOP_IP_P,
        b's' => TOP_IP_S,
        b't' => &[inert!(b"ip", b"tcp"), inert!(b"ip", b"tftp")],
        _ => &[],
    }
}
