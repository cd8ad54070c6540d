//! The rows of the language: which words and places a line of the language has, and what it means.

/// What a word gives, and of which form and range it must be.
#[derive(Clone, Copy, Debug, PartialEq, Eq)]
pub(crate) enum Form {
    Name,
    FaceName,
    /// A number from the first to the second.
    Number(u32, u32),
    Address,
    /// An address that is one host.
    Host,
    /// An address whose first byte gives the length of its network's prefix.
    Network,
    /// A mask of at least this many ones.
    Mask(u8),
    Wildcard,
    /// An area, as a number or as an address.
    Area,
    /// The number of a packet list, which gives its kind.
    ListNumber,
    /// The number of an entry, from 1 to this.
    Order(u32),
    /// An address and a length with a slash between them.
    Route,
    /// The least length of a route's prefix.
    AtLeast,
    /// The greatest length of a route's prefix.
    AtMost,
    /// The word of a protocol, or `ip` for all.
    Protocol,
    /// A destination port of the protocol before it.
    Port,
    /// The first of some ports.
    FirstPort,
    /// The last of them, which is not below the first.
    LastPort,
}

/// A part of a row.
#[derive(Clone, Copy, Debug, PartialEq, Eq)]
pub(crate) enum Part {
    /// This word.
    Word(&'static [u8]),
    /// `permit` or `deny`.
    Verdict,
    /// A word of a form.
    Place(Form),
    /// A word and one of a form after it, or neither.
    Option(&'static [u8], Form),
    /// A word, or nothing.
    Flag(&'static [u8]),
    /// The number before an entry, or nothing.
    EntryNumber,
    /// The word of a protocol, where the list is extended.
    Protocol,
    /// Where the packets of an entry come from.
    Source,
    /// Where the packets of an entry go to, where the list is extended.
    Destination,
    /// Which destination ports they are for, after a protocol that has ports, or nothing.
    Ports,
    /// Any words.
    Anything,
}

/// What a row means: how a command is made of the values of its places.
#[derive(Clone, Copy, Debug, PartialEq, Eq)]
pub(crate) enum Meaning {
    Hostname,
    Interface,
    RouterOspf,
    RouterBgp,
    ExtendedList,
    StandardList,
    ListLine,
    PrefixLine,
    Address,
    NoAddress,
    Shutdown,
    NoShutdown,
    Bandwidth,
    Cost,
    Area,
    PointToPoint,
    Broadcast,
    GroupIn,
    GroupOut,
    Covers,
    Passive,
    NoPassive,
    PassiveByDefault,
    NoPassiveByDefault,
    Reference,
    RouterId,
    RemoteAs,
    NeighborDown,
    NoNeighborDown,
    NeighborList,
    Tells,
    Entry,
    Inert,
}

/// A row of the language.
#[derive(Clone, Copy, Debug, PartialEq, Eq)]
pub(crate) struct Row {
    pub(crate) parts: &'static [Part],
    pub(crate) meaning: Meaning,
}

/// A row of this meaning with these parts.
macro_rules! row {
    ($meaning:ident: $($part:expr),+) => {
        Row {
            parts: &[$($part),+],
            meaning: Meaning::$meaning,
        }
    };
}

/// A row that begins with these words and says nothing.
macro_rules! inert {
    ($($word:literal),+) => {
        Row {
            parts: &[$(Part::Word($word)),+, Part::Anything],
            meaning: Meaning::Inert,
        }
    };
}

pub(crate) use inert;
pub(crate) use row;
