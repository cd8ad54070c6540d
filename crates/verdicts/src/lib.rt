//! Answers policies, each with a witness that shows the answer, and decides for all sets of failed
//! links at once. For a blocked or through policy what counts is how far the packets of each class
//! get over the routed arcs that permit them. For a reach policy it is how many paths there are of
//! which no two share a link, or the cut that rules them out.
#![tactic(auto)]

mod all_policies;
mod blocking;
mod fault;
mod judgement;
mod reach;
mod sides;

pub use all_policies::{are_all_yes, judge_all};
pub use fault::JudgeFault;
pub use judgement::{judge, judge_few};
