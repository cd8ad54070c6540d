//! Laws of generated networks: their files are read and refused for no reason, whatever their
//! number of routers, their network is the one that the number describes, and no limit on classes
//! or edits is passed.
#![tactic(auto)]

pub mod laws;
