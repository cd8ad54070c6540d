//! Explains on standard error how a run ended, beyond its output and status: the refused line, link
//! or policy, what a yes is worth, where a certificate is rejected, what is wrong with the words.
//! Files are read once more for it; what is said of their texts is made by `run_messages`. No
//! contract says what the messages are.
#![tactic(auto)]

mod answers;
mod explainer;
mod failures;
mod refusals;
mod words;

pub use explainer::Explainer;
