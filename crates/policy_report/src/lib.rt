//! The texts of reports, certificates and edits, and how they are read again. A report has a head
//! line, one block for each policy with the answer and its witness, and an end line; the
//! certificate of a repair has its answer, its edits, a block for each policy and a proof log.
//! `report` and `certificate` write them, and a `Reader` takes their lines one by one: it gives
//! back what they say, or rejects the first line that is not of the form.
#![tactic(auto)]

mod answers;
mod certificates;
mod drafts;
mod edits;
mod got;
mod growing;
mod headings;
pub mod laws;
mod lines;
mod reader;
mod reading;
mod reports;
mod services;
mod stages;
mod witness;
mod words;

pub use certificates::{budget, certificate, edit_lines};
pub use edits::{edit_line, edit_text};
pub use got::{CertFault, CertForm, Got};
pub use lines::{push_denied_line, push_path_line, push_refused_line, push_side_line};
pub use reader::Reader;
pub use reports::{push_answer_words, report};
pub use witness::{count_lines, push_paths, push_witness};
pub use words::{push_class, push_count, push_links, push_word};
