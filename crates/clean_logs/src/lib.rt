//! Logs that show that a search did its work: each clause that it added is new, so a search cannot
//! reach its limit by clauses that it has already. The definitions are in specs/, and the law is
//! the contract of a function that does nothing.
#![tactic(auto)]

mod kept;
pub mod laws;

pub use kept::KEPT_LEMMAS;
