//! The kinds of new lists.

use arc_base::Face;

/// A new list: a route list for the session of an interface, or an inbound packet list of an
/// interface.
#[derive(Clone, Copy, Debug, PartialEq, Eq)]
pub enum NewList {
    Route(Face),
    Packet(Face),
}
