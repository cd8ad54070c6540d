//! The network of a document and its router files, or the first reason why there is none. Each file
//! is read by itself. Then the rows are made and checked, in one fixed order, by the crates below:
//! `row_making` and `net_checks`, both over the definitions of `net_rules`.
#![tactic(auto)]

mod assembly;
mod built;
mod files;
pub mod laws;
mod networks;
mod places;

pub use built::{Built, FacePlace, ListPlace, Places};
pub use networks::{network, network_alone, network_within};
