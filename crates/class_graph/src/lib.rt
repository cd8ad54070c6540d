//! The graph of a traffic class: its nodes are the routers, and its arcs those of the network over
//! which the class's packets may go, whichever links fail. Lists are asked once for each class, and
//! which arcs are routed is found once for all classes between two host networks.
#![tactic(auto)]

mod answers;
mod arcs;
mod barriers;
mod building;
mod denials;
mod first_denials;
mod hosts;
mod last_graph;
mod listed;
mod modes;
mod parts;
mod same_routes;

pub use answers::list_answers;
pub use arcs::{cost, leads};
pub use barriers::{Barrier, first_barrier};
pub use building::{ClassGraph, build, routed_graph};
pub use first_denials::Denial;
pub use hosts::{End, HostPair, host_pair};
pub use last_graph::{LastGraph, graph_in, listed_in, refresh_graph};
pub use listed::listed_links;
pub use modes::Mode;
pub use parts::{ClassPart, class_part};
