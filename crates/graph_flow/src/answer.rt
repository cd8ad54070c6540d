//! The answer of a search for link-disjoint paths: the paths, or a smaller cut.

use crate::arcs::LinkRow2;
use arc_base::{Link, List};

/// Link-disjoint paths, or why there are too few: the links that leave a side, and for each node
/// whether it is on that side.
#[derive(Debug, Drop)]
pub enum FlowAnswer {
    Paths(List<LinkRow2>),
    Cut(List<Link>, List<bool>),
}
