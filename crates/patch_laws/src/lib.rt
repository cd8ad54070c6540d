//! Router files after edits, read again: the laws here say that their settings are the old settings
//! after the edits, so that nothing of them is refused and their network is exactly the network
//! after the edits.
#![tactic(auto)]

pub mod laws;
