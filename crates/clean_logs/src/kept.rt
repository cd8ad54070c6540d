//! How many of the latest clauses of a log stay.

/// The j-th step of a clean log that drops clauses names none of the `KEPT_LEMMAS * j` that were
/// added last.
pub const KEPT_LEMMAS: u64 = 1_000;
