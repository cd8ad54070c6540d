//! Steps of a proof log, and logs of them.

use arc_base::List;
use cnf_types::Lit;

/// A step of a proof log.
#[derive(Debug, Drop)]
pub enum Step {
    /// A new clause with its id. A positive hint is the id of a clause; a negative one belongs to
    /// RAT steps, which are not accepted.
    Add {
        id: u64,
        lits: List<Lit>,
        hints: List<i64>,
    },
    /// Clauses that are not used any more.
    Drop {
        ids: List<u64>,
    },
    /// The claim, under an id, that the price is at most `price`.
    Bound {
        id: u64,
        price: u32,
    },
}

/// A proof log: its steps in order.
#[derive(Debug, Drop)]
pub struct Log {
    pub steps: List<Step>,
}
