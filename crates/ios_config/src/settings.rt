//! What a router file sets, as types, each value with the line that gave it.

use arc_base::{List, Name};
use ios_words::{AreaText, Command};

/// A value, and the number of the line that gave it.
#[derive(Clone, Copy, Debug, Drop)]
pub struct Given<T> {
    pub value: T,
    pub line: u32,
}

/// The name of the router, and the number of the line that gave it.
#[derive(Debug, Drop)]
pub struct Setting {
    pub name: Name,
    pub line: u32,
}

/// What a router file sets. All lines are numbered from 1.
#[derive(Debug, Drop)]
pub struct Config {
    pub hostname: Option<Setting>,
    /// The interfaces in file order of their blocks.
    pub faces: List<FaceText>,
    /// The lists in the order of their first lines.
    pub lists: List<ListText>,
    /// The routing processes in file order of their blocks.
    pub process: List<ProcessText>,
}

/// What an interface block sets. A setting is `None` if no line of the block gives it a value, or
/// if the last line about it takes its value away.
#[derive(Debug, Drop)]
pub struct FaceText {
    pub name: Name,
    /// The line that heads the block.
    pub head: u32,
    /// The block's last command line. Lines that are left aside count, comments and blank lines do
    /// not.
    pub last: u32,
    pub addr: Option<Given<u32>>,
    /// The number of ones of the mask.
    pub mask_len: Option<Given<u8>>,
    pub shut: Option<Given<bool>>,
    /// In kbit/s.
    pub bandwidth: Option<Given<u32>>,
    pub cost: Option<Given<u32>>,
    pub area: Option<Given<AreaText>>,
    /// Whether the OSPF network type is point-to-point, and else broadcast.
    pub point: Option<Given<bool>>,
    pub list_in: Option<Given<Name>>,
    pub list_out: Option<Given<Name>>,
}

/// A list of packet or route entries, which may be empty where it is a block.
#[derive(Debug, Drop)]
pub struct ListText {
    pub name: Name,
    pub kind: ListKind,
    pub form: ListForm,
    /// Whether the first entry has a number of its own, and then each has.
    pub numbered: bool,
    /// The commands of the entries in file order.
    pub entries: List<Given<Command>>,
}

/// What the entries of a list match by.
#[derive(Clone, Copy, Debug, PartialEq, Eq)]
pub enum ListKind {
    /// Source and destination of a packet.
    Extended,
    /// The source of a packet.
    Standard,
    /// The prefix of a route.
    Prefix,
}

/// How a list is written in its file.
#[derive(Clone, Copy, Debug, PartialEq, Eq)]
pub enum ListForm {
    /// As `access-list` lines.
    Lines,
    /// As a block of `ip access-list`.
    Block,
    /// As `ip prefix-list` lines.
    PrefixLines,
}

/// A routing process.
#[derive(Debug, Drop)]
pub struct ProcessText {
    pub kind: ProcessKind,
    /// The number of the OSPF process, or the autonomous system of BGP.
    pub number: u32,
    /// The line that heads the block.
    pub head: u32,
    /// The block's last command line. Lines that are left aside count, comments and blank lines do
    /// not.
    pub last: u32,
    /// The commands of the block below its head in file order, with those that are left aside.
    pub lines: List<Given<Command>>,
}

/// The protocol of a routing process.
#[derive(Clone, Copy, Debug, PartialEq, Eq)]
pub enum ProcessKind {
    Ospf,
    Bgp,
}
