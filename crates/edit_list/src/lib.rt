//! The modelled edits of a network: sessions that are turned, and entries that are added at the
//! front of existing lists or of new ones. It lists the edits of a network for a document in their
//! one order, and prices a set of them. What the network after them is, is defined here;
//! `edit_space` makes it.
#![tactic(auto)]

mod claims;
mod countable;
mod destinations;
mod edit_kinds;
pub mod laws;
mod list_kinds;
mod listing;
mod prices;
mod sites;
mod writable;

pub use claims::Claim;
pub use edit_kinds::{Edit, EditFault};
pub use list_kinds::NewList;
pub use listing::edits;
pub use prices::{chosen_edits, price, unchosen, weight};
pub use sites::Site;
