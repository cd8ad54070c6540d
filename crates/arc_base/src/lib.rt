//! The values that every crate uses: out of memory, lists, names, prefixes, parts of a text, places
//! in a network, and the kinds of refusal. Contracts see a list as its items, a name as its bytes
//! and a prefix as the set of its addresses.
#![tactic(auto)]

mod certificate;
mod cut;
pub mod groups;
pub mod limits;
mod line_words;
mod list;
mod memory;
mod name;
mod name_form;
mod place;
mod prefix;
mod prefix_text;
mod reason_words;
mod refusal;
mod span;
mod word_numbers;

pub use certificate::CertKind;
pub use cut::cut_at;
pub use line_words::{first_line, next_word, without_return};
pub use list::List;
pub use memory::Memory;
pub use name::Name;
pub use name_form::is_name;
pub use place::{Face, Link, ListId, Router};
pub use prefix::Prefix;
pub use prefix_text::{
    prefix_texts_are_exact, push_address, push_number, push_prefix, read_address, read_number,
    read_prefix,
};
pub use refusal::{Kind, LimitKind};
pub use span::Span;
pub use word_numbers::{natural, number};
