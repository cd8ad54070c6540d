//! The answers of a repair.

use edit_list::Claim;
use proof_log::Log;

/// The answer of a repair.
#[derive(Debug, Drop)]
pub enum Answer {
    /// The claim is true, as the log shows.
    Done(Claim, Log),
    /// The log adds as many clauses as the limit allows, and nothing is claimed.
    Budget(Log),
}
