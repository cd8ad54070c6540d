//! The settings of router files after edits of their network, defined without a byte of their
//! texts, and the network of such settings. The laws of patches show that these are the settings of
//! the patched files. The laws here say that nothing of them is then refused, and that their
//! network is exactly the network after the edits.
#![tactic(auto)]

pub mod laws;
