//! Laws over the definitions of `net_model`, each the contract of a function that does nothing.
//! They show that the definitions are the right ones: stable distances exist and are unique, and
//! each right witness shows its verdict. A crate above that rests on a law calls its function or
//! cites the lemma that proves it.
#![tactic(auto)]

mod laws;

pub use laws::{
    closed_sides_are_right, cuts_and_denials_are_right, nos_show_what_breaks, paths_are_right,
    routes_decide, square, stable_map_is_unique, two_routers, verdicts_are_right, walks_are_right,
};
