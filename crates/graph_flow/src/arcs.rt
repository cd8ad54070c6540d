//! The arcs of a graph, and the links of a path.

use arc_base::{Link, List};

/// One direction of a link: from the node `tail` to the node `head`. The cost is what a path pays
/// for it.
#[derive(Clone, Copy, Debug, PartialEq, Eq)]
pub struct Arc {
    pub link: Link,
    pub tail: u32,
    pub head: u32,
    pub cost: u32,
}

/// Which arcs of a link may be gone over: that to a node with a higher number, and that to one with
/// a lower.
#[derive(Clone, Copy, Debug, PartialEq, Eq)]
pub struct OpenLink {
    pub up: bool,
    pub down: bool,
}

/// The links of a path, from its first node to its last.
#[derive(Debug, Drop)]
pub struct LinkRow2 {
    pub links: List<Link>,
}

/// What fills an empty place: an arc that no graph holds, since it leads nowhere.
impl Default for Arc {
    fn default() -> Arc {
        Arc {
            link: Link(0),
            tail: 0,
            head: 0,
            cost: 0,
        }
    }
}
