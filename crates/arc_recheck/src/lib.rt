//! Rechecks an old report after a change. A verdict is kept if its witness is still right, which
//! needs no search, and only the others are judged anew. For a reach policy that holds it lists the
//! links whose failure alone breaks it.
#![tactic(auto)]

mod copying;
mod held;
pub mod laws;
mod needs;
mod rechecking;
mod singles;
mod texts;

pub use held::HeldBlocks;
pub use rechecking::{Rechecked, recheck, recheck_few};
pub use singles::{alone, alone_with};
pub use texts::recheck_text;
