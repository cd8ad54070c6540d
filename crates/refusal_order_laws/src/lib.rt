//! Laws over the order of refusals: no gap is left between the network of router files and their
//! first refusal.
#![tactic(auto)]

pub mod laws;
