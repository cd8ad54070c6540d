//! `verify` says yes to each policy over the files that `repair` leaves.
#![tactic(auto)]

pub mod laws;
