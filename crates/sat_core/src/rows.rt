//! Rows of the list of clauses.

use crate::numbered::Numbered;
use clause_pool::Place;

/// A clause of the list: under its id one that the pool keeps at a place, or one that is kept here,
/// since no two of its literals can watch it.
#[derive(Debug, Drop)]
pub(crate) enum Row {
    Watched(u64, Place),
    Beside(Numbered),
}
