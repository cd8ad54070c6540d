//! A network, the lines of its files, and where in them its parts come from.

use arc_base::{List, Name};
use ios_config::ListForm;
use ios_lines::Lines;
use net_model::Network;

/// A network, and where in its files its parts come from. All places are line numbers.
#[derive(Debug, Drop)]
pub struct Built {
    pub net: Network,
    /// The lines of each router file, in the order of the document.
    pub lines: List<Lines>,
    /// The places of each router file, in the same order.
    pub places: List<Places>,
}

/// The lines of a router file that the parts of its router come from.
#[derive(Debug, Drop)]
pub struct Places {
    /// The line that heads the process block.
    pub process: u32,
    /// The last command line of that block.
    pub process_last: u32,
    /// In file order, as the interfaces of the network.
    pub faces: List<FacePlace>,
    /// In the order of their first lines, bound or not.
    pub lists: List<ListPlace>,
}

/// An interface block: the line that heads it and its last command line.
#[derive(Clone, Copy, Debug)]
pub struct FacePlace {
    pub head: u32,
    pub last: u32,
}

/// A list of a file, with the lines of its entries.
#[derive(Debug, Drop)]
pub struct ListPlace {
    pub name: Name,
    pub form: ListForm,
    /// Whether its entries have numbers.
    pub numbered: bool,
    pub entries: List<u32>,
}
