//! The network after edits. What the edits change is gathered once, interface by interface and list
//! by list; new lists get the first names that are free at their routers, and the old and the new
//! lists are sorted by router and name. The list of edits and their price are those of `edit_list`.
#![tactic(auto)]

mod changes;
mod entries;
pub mod laws;
mod list_kinds;
mod names;
mod network_after;
mod new_lists;
mod order;
mod rows;

pub use changes::Changes;
pub use edit_list::{Claim, Edit, EditFault, edits, price};
pub use entries::{any, opposite_packet_entry, opposite_route_entry};
pub use network_after::after;
pub use new_lists::{lists_made, new_names};
