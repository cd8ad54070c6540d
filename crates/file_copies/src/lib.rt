//! The router files that edits change, as a command writes them: a copy of each changed file, under
//! its name with a suffix. No file that is read is written over, and none is written twice. Once
//! they are written, the router files are left patched, and read again they have the network after
//! the edits.
#![tactic(auto)]

pub mod change_laws;
mod changing;
pub mod output_laws;
mod outputs;

pub use changing::changes;
pub use outputs::{clashes, copies, copy_names, holds, push_wrote};
