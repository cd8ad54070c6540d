//! The graph method of ARC (SIGCOMM 2016) on its own: directed graphs whose arcs belong to links,
//! the nodes that paths reach, greatest flows, and link-disjoint paths or the smaller cut that
//! rules them out. A link is a pair of opposite arcs and carries at most one path, in one of its
//! directions. Three laws hold of every graph without a program: there are k link-disjoint paths or
//! a smaller cut, and not both; the nodes that paths reach can be listed; and two nodes have one
//! least side.
#![tactic(auto)]

mod answer;
mod arcs;
mod closure;
mod disjoint_paths;
mod flow;
mod graph;
pub mod laws;
mod needed;
mod residual;
mod row;
mod search;
mod searched_arcs;
mod units;

pub use answer::FlowAnswer;
pub use arcs::{Arc, LinkRow2, OpenLink};
pub use closure::Closure;
pub use disjoint_paths::disjoint;
pub use flow::Flow;
pub use graph::Graph;
pub use needed::needed_links;
