//! The reasons to refuse what router files set: routers by their names, processes, areas, AS
//! numbers, router ids, network types and counts, sessions by their neighbours, network statements
//! and packet lists, addresses by their subnets and the ends of links and policies. Each is tried
//! over the files in their order; what may occur only once is gathered in an index, and so are far
//! ends and subnets. The first interface that overlaps one before it is found by bisection over
//! sorted subnets, O(n log² n) in all, and a list is tried run by run of services that it treats
//! alike.
#![tactic(auto)]

mod adjacency;
mod areas;
mod claims;
mod ends;
mod limits;
mod overlap;
mod peers;
mod routers;
mod session_packets;
mod stops;

pub use adjacency::try_adjacency;
pub use areas::try_areas;
pub use ends::{has_endpoints, try_endpoints, try_subnets};
pub use limits::{try_entries, try_interfaces};
pub use overlap::try_overlap;
pub use peers::{try_neighbors, try_networks};
pub use routers::{try_as_numbers, try_hostnames, try_processes};
pub use stops::try_lists;
