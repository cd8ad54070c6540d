//! Whether a row matches the words of a line: whether the line has its fixed words where the row
//! has them.
ghost use Rattle.ios_words.specs.Readings.{after, match_words};
ghost use Rattle.ios_words.specs.Rows.{piece_of};
ghost use Rattle.ios_words.specs.Views.{words_of};
ghost use Rattle.std.specs.Prelude.{◌≡◌, map, option_map};

use crate::rows::Part;
use crate::words::Words;

/// Whether the words have the fixed words of these parts where the parts have them.
pub(crate) fn matches(parts: &[Part], words: Words) -> bool
    ensures { result ≡ match_words (map piece_of parts.now) (words_of words.entry) }
{
    let mut left = words;
    for part in parts {
        match after(*part, left) {
            Some(rest) => left = rest,
            None => return false,
        }
    }
    true
}

/// The words after a part of a row, where they have the part's fixed words.
fn after<'a>(part: Part, words: Words<'a>) -> Option<Words<'a>>
    ensures { option_map words_of result ≡ after (piece_of part) (words_of words.entry) }
{
    match part {
        Part::Word(word) if words.begin_with(word) => Some(words.rest()),
        Part::Word(_) => None,
        Part::Verdict if words.begin_with_verdict() => Some(words.rest()),
        Part::Verdict => None,
        Part::Place(_) => Some(words.rest()),
        Part::Option(word, _) if words.begin_with(word) => Some(words.rest().rest()),
        Part::Option(_, _) => Some(words),
        Part::Flag(word) if words.begin_with(word) => Some(words.rest()),
        Part::Flag(_) => Some(words),
        Part::EntryNumber if words.begin_entry() => Some(words),
        Part::EntryNumber => Some(words.rest()),
        Part::Protocol | Part::Source | Part::Destination | Part::Ports | Part::Anything => {
            Some(words.none())
        }
    }
}
