//! What an answer means for any forwarding: a yes holds for it if OSPF runs everywhere in the
//! network of the files, and edits of sessions can end this.
#![tactic(auto)]

mod notes;

pub use notes::{edits_close, holds_for_any};
