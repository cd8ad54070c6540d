//! Where a line is, and why it says nothing.

/// The block that a line is in; its rows are those of the language that are allowed there. A line
/// that heads a block is itself a top line.
#[derive(Clone, Copy, Debug, PartialEq, Eq)]
pub enum BlockKind {
    Top,
    Interface,
    Ospf,
    Bgp,
    /// The block of an extended packet list.
    Extended,
    /// The block of a standard packet list.
    Standard,
    /// A block of which every line is inert.
    Inert,
}

/// Why a line says nothing.
#[derive(Clone, Copy, Debug, PartialEq, Eq)]
pub enum WordFault {
    /// No row matches.
    Unknown,
    /// The word at this place, from 1, is out of its form or range, missing or one too many.
    BadWord(u32),
    /// A mask or wildcard is an address, but not contiguous.
    WildcardNotPrefix,
    /// Out of memory.
    Memory,
}

/// What is wrong with a word.
#[derive(Clone, Copy, Debug, PartialEq, Eq)]
pub(crate) enum Flaw {
    /// It is out of its form or range.
    Amiss,
    /// It is an address where a mask or wildcard is wanted, but not contiguous.
    Scattered,
}
