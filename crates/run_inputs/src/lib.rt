//! What a command over a document begins with: the document, the router files that it names, and
//! their network, or the first refusal of these in order. The classes of the policies are counted
//! here too, for the commands that judge, and a count above its limit is refused.
#![tactic(auto)]

mod counting;
mod inputs;
pub mod laws;

pub use counting::{count_classes, fault_stop};
pub use inputs::{Input, Sources, read_document, read_files, read_input, read_sources};
