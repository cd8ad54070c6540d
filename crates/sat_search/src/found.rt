//! What a search finds.

use arc_base::List;

/// What a search has found.
#[derive(Debug, Drop)]
pub enum Found {
    /// A value for each variable, that of variable v at place v - 1, which makes all clauses true.
    Model(List<bool>),
    /// The clauses have no model: the last step of the log adds the empty clause.
    Refuted,
    /// The log adds as many clauses as the limit allows.
    Budget,
}
