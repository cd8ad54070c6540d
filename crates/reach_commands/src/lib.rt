//! The commands that go beyond `verify`: `nodes` judges reach under failed routers, `prefers`
//! whether packets go by a list of routers, and `recheck` an old report after a change. Each reads
//! its input, judges it by a crate of its own, and prints the answer with its witness.
#![tactic(auto)]

mod added;
pub mod laws;
mod preferring;
mod rechecked;
mod report_lines;
mod router_failures;
mod routers;

pub use preferring::prefers;
pub use rechecked::recheck;
pub use router_failures::nodes;
