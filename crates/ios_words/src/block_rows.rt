//! The rows of lines of processes, of lists and of inert blocks.
ghost use Rattle.ios_words.specs.Language.{rows};
ghost use Rattle.std.specs.List.{list_all};
ghost use Rattle.std.specs.Prelude.{◌≡◌, IsTrue, map};
ghost use Rattle.ios_words.specs.declared.kinds.BlockKind.TheVariants as blocks;
ghost use Rattle.ios_words.specs.Rows.{rule_of};
ghost use Rattle.ios_words.specs.Trials.{is_short};

use crate::rows::Form::{Address, Area, FaceName, Mask, Name, Network, Number, Wildcard};
use crate::rows::Part::{
    Anything, Destination, EntryNumber, Flag, Place, Ports, Protocol, Source, Verdict, Word,
};
use crate::rows::{Meaning, Part, Row, inert, row};

const OSPF: &[Row] = &[
    inert!(b"log-adjacency-changes"),
    inert!(b"no", b"log-adjacency-changes"),
    inert!(b"maximum-paths"),
    row!(Covers: Word(b"network"), Place(Address), Place(Wildcard), Word(b"area"), Place(Area)),
    row!(Passive: Word(b"passive-interface"), Place(FaceName)),
    row!(NoPassive: Word(b"no"), Word(b"passive-interface"), Place(FaceName)),
    row!(PassiveByDefault: Word(b"passive-interface"), Word(b"default")),
    row!(NoPassiveByDefault: Word(b"no"), Word(b"passive-interface"), Word(b"default")),
    row!(Reference: Word(b"auto-cost"), Word(b"reference-bandwidth"), Place(Number(1, 4294967))),
    row!(RouterId: Word(b"router-id"), Place(Address)),
];

const BGP: &[Row] = &[
    inert!(b"bgp", b"log-neighbor-changes"),
    inert!(b"no", b"synchronization"),
    inert!(b"no", b"auto-summary"),
    inert!(b"maximum-paths"),
    row!(Inert: Word(b"neighbor"), Place(Address), Word(b"description"), Anything),
    row!(Inert: Word(b"neighbor"), Place(Address), Word(b"soft-reconfiguration"), Anything),
    row!(Inert: Word(b"neighbor"), Place(Address), Word(b"send-community"), Anything),
    row!(Inert: Word(b"neighbor"), Place(Address), Word(b"version"), Anything),
    row!(RemoteAs:
        Word(b"neighbor"), Place(Address), Word(b"remote-as"), Place(Number(1, 4294967295))
    ),
    row!(NeighborDown: Word(b"neighbor"), Place(Address), Word(b"shutdown")),
    row!(NoNeighborDown: Word(b"no"), Word(b"neighbor"), Place(Address), Word(b"shutdown")),
    row!(NeighborList:
        Word(b"neighbor"), Place(Address), Word(b"prefix-list"), Place(Name), Word(b"in")
    ),
    row!(Tells: Word(b"network"), Place(Address), Word(b"mask"), Place(Mask(0))),
    row!(Tells: Word(b"network"), Place(Network)),
    row!(RouterId: Word(b"bgp"), Word(b"router-id"), Place(Address)),
];

const EXTENDED: &[Row] = &[
    row!(Inert: EntryNumber, Word(b"remark"), Anything),
    row!(Entry: EntryNumber, Verdict, Protocol, Source, Destination, Ports, Flag(b"log")),
];

const STANDARD: &[Row] = &[
    row!(Inert: EntryNumber, Word(b"remark"), Anything),
    row!(Entry: EntryNumber, Verdict, Source, Flag(b"log")),
];

const INERT: &[Row] = &[row!(Inert: Anything)];

/// The rows of an OSPF process.
pub(crate) fn ospf_rows() -> &'static [Row]
    ensures rows { map rule_of result.now ≡ rows blocks.Ospf }
    ensures short { IsTrue (list_all is_short (map rule_of result.now)) }
{
    OSPF
}

/// The rows of a BGP process.
pub(crate) fn bgp_rows() -> &'static [Row]
    ensures rows { map rule_of result.now ≡ rows blocks.Bgp }
    ensures short { IsTrue (list_all is_short (map rule_of result.now)) }
{
    BGP
}

/// The rows of an extended list.
pub(crate) fn extended_rows() -> &'static [Row]
    ensures rows { map rule_of result.now ≡ rows blocks.Extended }
    ensures short { IsTrue (list_all is_short (map rule_of result.now)) }
{
    EXTENDED
}

/// The rows of a standard list.
pub(crate) fn standard_rows() -> &'static [Row]
    ensures rows { map rule_of result.now ≡ rows blocks.Standard }
    ensures short { IsTrue (list_all is_short (map rule_of result.now)) }
{
    STANDARD
}

/// The row of an inert block.
pub(crate) fn inert_block_rows() -> &'static [Row]
    ensures rows { map rule_of result.now ≡ rows blocks.Inert }
    ensures short { IsTrue (list_all is_short (map rule_of result.now)) }
{
    INERT
}
