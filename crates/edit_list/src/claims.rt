//! What a repair claims.

use arc_base::List;
use net_model::Verdict;

/// What a repair claims: the cheapest edits that make the network meet the document, or that there
/// are none of a price up to the bound.
#[derive(Debug, Drop)]
pub enum Claim {
    /// The edits with a flag have this price, which is the least; after them these verdicts hold.
    Repaired {
        price: u32,
        /// The greatest price that was looked at.
        bound: u32,
        /// One flag for each edit.
        chosen: List<bool>,
        /// One for each policy, each a yes.
        verdicts: List<Verdict>,
    },
    /// No edits of a price up to the bound make the network meet the document.
    NoRepair {
        bound: u32,
    },
}
