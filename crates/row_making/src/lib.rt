//! The rows of a network: of routers and of the lists that their files define or bind, of
//! interfaces, links and sessions. What the lines of a process say is gathered once into an index,
//! in which the row of each interface looks up its own; names are kept in sorted sets, and
//! interfaces and lists are found by their names in indexes. Whether links join free interfaces,
//! and whether the links that are to be down exist, is tried here too, since sessions are made in
//! the order of the links.
#![tactic(auto)]

mod bound_lists;
mod faces;
mod links;
mod lists;
mod places_of_lists;
mod process_index;
mod routers;
mod sessions;

pub use faces::{Surroundings, face_rows};
pub use links::{try_down_links, try_links};
pub use lists::{packet_lists, route_lists};
pub use places_of_lists::{index_packet_lists, index_route_lists};
pub use routers::router_rows;
pub use sessions::session_rows;
