//! Laws over the definitions of `edit_list`, each the contract of a function that does nothing.
//! They show that the network after edits is the right one: each edit turns its own answers and no
//! others, wherever its list is bound, and the traffic classes stay as they are.
#![tactic(auto)]

mod kept;
mod laws;

pub use kept::{
    edits_keep_classes, entries_turn_answers, no_edits_change_nothing, packet_edits_are_writable,
};
pub use laws::{bound_lists_act, edits_turn_their_own};
