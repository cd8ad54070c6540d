//! The rows of a network by the settings of its router files, and each reason to refuse them, as
//! definitions. The crates above make the rows, try the reasons and join both. What they share is
//! here: the protocol and the lines of a file's process, the kind, address and subnet of an
//! interface, and names and prefixes in indexes by which they are found.
#![tactic(auto)]

mod interfaces;
mod kinds;
mod names;
mod prefixes;
mod processes;
mod reasons;
mod spots;

pub use interfaces::{address_at, address_of, has_point_type, is_point_to_point, subnet_of};
pub use kinds::FaceKind;
pub use names::{FullName, add_name, contains_name, host_name, index_names, place_of};
pub use prefixes::{Prefixes, add_prefix, has_prefix, has_prefix_of};
pub use processes::{DEFAULT_REFERENCE, lines_of, process_of, protocol_of, protocol_of_kind};
pub use reasons::{in_document, in_file};
pub use spots::{Spot, spot_at};
