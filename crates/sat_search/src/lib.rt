//! A search for a model of a core's clauses by conflict-driven clause learning: at each conflict it
//! learns a clause, a lemma, and goes on at the level where the lemma implies a literal. It writes
//! each lemma with its hints as a step of a proof log, so that a refutation can be checked.
//! The contracts say that the steps are accepted, that a model satisfies all clauses, and that
//! lemmas are new.
#![tactic(auto)]

mod beginning;
mod counting;
mod deciding;
mod found;
mod learner;
mod lemmas;
mod lesson;
mod marks;
mod order;
mod restarts;
mod searching;
mod sparing;
mod values;

pub use beginning::core_of;
pub use counting::additions;
pub use found::Found;
pub use searching::{search, search_first};
