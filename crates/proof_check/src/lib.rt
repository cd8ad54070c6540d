//! A checker of proof logs. It keeps the live clauses under their ids, accepts a step that adds a
//! clause where unit propagation along its hints ends in a conflict, and judges drops and bounds. A
//! log that it accepts and that adds the empty clause shows that no assignment satisfies the
//! formula together with the bounds.
#![tactic(auto)]

mod checker;
mod faults;
mod flags;
mod hints;
mod judging;
pub mod laws;
mod left;
mod live;
mod rejections;
mod rows;
mod tables;

pub use checker::Checker;
pub use faults::StepFault;
pub use judging::{fault_kind, judge_line};
pub use rejections::{Outcome, Rejection};
