//! The traffic classes of policies: the parts of a policy's packets that no packet list tells
//! apart. They are found by halving a policy's two prefixes wherever a mark, a prefix of a list's
//! entry or of a policy, lies inside, and by cutting its services wherever those of an entry, of a
//! policy or of a protocol begin or end. Each class can then be judged by any one of its packets.
#![tactic(auto)]

mod classing;
mod fault;
mod found;
mod gathering;
mod halving;
pub mod laws;
mod marks;
mod policy_leaves;
mod service_leaves;
mod sorted_marks;

pub use classing::{all_classes, classes};
pub use fault::ClassFault;
pub use marks::Marks;
