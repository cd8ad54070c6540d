//! The repair formula of a network, a document and its edits: it has a model exactly for each set
//! of edits after which the network meets the document, within their price. Each answer of the
//! network is a condition of at most one edit; the clauses over the conditions are those of
//! `condition_formula`.
#![tactic(auto)]

mod answers;
mod condition_arcs;
mod edit_index;
mod encoding;
pub mod laws;
mod questions;

pub use condition_formula::{PackedEncoding, model_edits};
pub use encoding::{Encoded, encode, encode_packed};
