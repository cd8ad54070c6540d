//! The variables of a search in the order of their activities: an indexed binary heap. Contracts
//! see a heap as the list of its variables, none of which is more active than the one above it.
#![tactic(auto)]

mod heap;
mod shifting;

pub use heap::VariableHeap;
