//! `check` accepts what `verify` printed, and what `repair` and `generate` wrote. There is no code
//! here: each function is a law over the definitions of these commands.
#![tactic(auto)]

pub mod laws;
