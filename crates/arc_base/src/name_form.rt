//! The form of the names of routers and lists.
ghost use Rattle.arc_base.specs.NameForms.{is_name, is_name_byte};
ghost use Rattle.std.specs.List.{list_all};
ghost use Rattle.std.specs.Prelude.{◌≡◌};

use crate::limits::NAME_LIMIT;

/// Whether a word has the form of a name: at least one and at most `NAME_LIMIT` letters, digits,
/// `-`, `_` and `.`.
pub fn is_name(word: &[u8]) -> bool
    ensures { result ≡ is_name word.now }
{
    if word.is_empty() {
        return false;
    }
    if word.len() > NAME_LIMIT {
        return false;
    }
    are_name_bytes(word)
}

fn are_name_bytes(word: &[u8]) -> bool
    ensures { result ≡ list_all is_name_byte word.now }
{
    word.iter().all(|byte| is_name_byte(*byte))
}

fn is_name_byte(byte: u8) -> bool
    ensures { result ≡ is_name_byte byte }
{
    byte.is_ascii_alphanumeric() || byte == b'-' || byte == b'_' || byte == b'.'
}
