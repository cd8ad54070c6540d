//! Where routers send packets for a host network once a set of links has failed: the stable
//! distances, the links of the next hops, and both as a text. The distances are found by
//! Dijkstra's algorithm (RFC 2328, section 16.1), from the owner of the host network on.
//! The definitions are those of `net_model`. `next_hops` is for callers of the library: the text
//! of a trace has the next hops of all routers at once.
#![tactic(auto)]

mod front;
mod groups;
mod hops;
mod routes;
mod steps;
mod trace;

pub use hops::next_hops;
pub use routes::distances;
pub use trace::{router_name, trace_text};
