//! The document that names the router files, the links and the policies. It is read from JSON (RFC
//! 8259); what is no document is refused whole.
#![tactic(auto)]

mod document_text;
mod drafts;
mod fault;
mod items;
pub mod laws;
mod limits;
mod members;
mod services;
mod weights;

pub use document_text::document;
pub use fault::{NetFault, Refusal};
