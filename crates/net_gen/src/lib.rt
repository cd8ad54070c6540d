//! Networks to try the program on, each made from its number of routers alone: a ring of routers
//! with links across it, OSPF in one area, the policies that each router reaches the next around
//! the ring whichever link fails, and one policy that can't hold until a router is told not to
//! forward. What is made is the document and the text of each router file.
#![tactic(auto)]

mod documents;
mod generating;
mod plans;
mod router_files;

pub use generating::{Generated, generate};
