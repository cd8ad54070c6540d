//! Laws of copies for failed routers and for preferred lists of routers, whose definitions are
//! above those of `copy_laws`. Each law is the contract of a function that does nothing.
#![tactic(auto)]

mod laws;

pub use laws::fewer_packets_pass;
