//! Reach under failed routers. When a router fails, all its links fail. A policy is met under K
//! failed routers if its ends share a router or a link, or K + 1 paths lead from source to target,
//! no two of them through one router; else a cut of at most K routers separates the ends. The graph
//! has two nodes for each router, so that link-disjoint paths in it are router-disjoint paths of
//! the network. `accepts_nodes` is for callers of the library: `arcv` makes verdicts, and reads
//! none back.
#![tactic(auto)]

mod acceptance;
mod apart;
mod cases;
mod cutting;
mod denied;
mod hops;
mod judgement;
mod laws;
mod paths;
mod router_cuts;
mod splitting;
mod text;
mod verdict;

pub use acceptance::accepts_nodes;
pub use judgement::{judge_nodes, judge_nodes_of};
pub use laws::{node_verdicts_are_right, paths_or_router_cut};
pub use text::nodes_text;
pub use verdict::NodeVerdict;
