//! The settings of a router file: what its lines set, each value with the line that gave it. A
//! later line of a setting replaces an earlier one, and a `no` form takes the value away. Else the
//! file is refused at the first line that does not fit.
#![tactic(auto)]

mod commands;
mod configs;
mod copies;
mod faces;
mod fault;
pub mod laws;
mod lists;
mod parts;
mod processes;
mod rising;
mod settings;
mod twice;

pub use commands::opened_by;
pub use configs::config;
pub use fault::ConfigFault;
pub use rising::lesser;
pub use settings::{
    Config, FaceText, Given, ListForm, ListKind, ListText, ProcessKind, ProcessText, Setting,
};
