//! What the program says on standard error to the person at the terminal: the line, link, policy or
//! interfaces that a refusal is about and what is wrong with them, why a text is no document, why
//! words match no command, which policy a certificate is rejected at, and whether a report has a
//! yes that calls for a note. It changes no answer and no status, and no contract says what the
//! messages are.
#![tactic(auto)]

mod blocks;
mod documents;
mod edits;
mod interfaces;
mod lines;
mod outputs;
mod overlaps;
mod policies;
mod showing;
mod words;

pub use blocks::{Blocks, has_barred, is_barred, rejection_of};
pub use documents::{document_fault, document_item};
pub use edits::edits_of_new_lists;
pub use interfaces::missing_face;
pub use lines::{line_at, wrong_word};
pub use outputs::{clash, document_of};
pub use overlaps::Subnets;
pub use policies::policy_words;
pub use showing::Shown;
pub use words::words_fault;
