//! Judges a verdict by its witness alone, without a search over the network and without memory. A
//! list's one answer to a class is found by halving boxes of packets against its entries. A verdict
//! is accepted exactly where its witness is right, and by the laws of the model a right witness
//! shows that the verdict is true.
#![tactic(auto)]

mod acceptance;
mod answers;
mod arcs;
mod boxes;
mod cases;
mod clearness;
mod cuts;
mod order;
mod packets;
mod paths;
mod sides;
mod trails;
mod walks;

pub use acceptance::accepts;
pub use answers::{Asked, Share, answer, none_gets};
pub use arcs::ArcRows;
pub use boxes::{entry_class, halve_towards, splits};
pub use cases::Case;
pub use clearness::{arc_permits, arc_permits_each, clear, permits_each, permitted};
pub use cuts::is_on;
pub use packets::lies_in;
