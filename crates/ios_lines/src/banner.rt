//! Banners: what ends them, and where they end.
ghost use Rattle.ios_lines.specs.Banners.{banner_text, begun, delimiter, has_pair, size, stands};
ghost use Rattle.std.specs.Prelude.{◌≡◌, drop};

use crate::blanks::{first_word, without_blanks};

/// What ends a banner.
#[derive(Clone, Copy, Debug, PartialEq, Eq)]
pub(crate) enum Delimiter {
    /// The two bytes `^C`.
    Pair,
    /// Another byte.
    Byte(u8),
    /// Nothing: the banner's first line has no text.
    Missing,
}

/// Whether `^` and `C` occur in a line, the one right before the other.
fn has_pair(line: &[u8]) -> bool
    ensures { result ≡ has_pair line.now }
{
    line.iter()
        .zip(line.iter().skip(1))
        .any(|(one, two)| *one == b'^' && *two == b'C')
}

/// Whether a delimiter occurs in a line.
pub(crate) fn stands(delimiter: Delimiter, line: &[u8]) -> bool
    ensures { result ≡ stands delimiter line.now }
{
    match delimiter {
        Delimiter::Pair => has_pair(line),
        Delimiter::Byte(byte) => line.contains(&byte),
        Delimiter::Missing => false,
    }
}

/// The text of a banner on its first line: what follows two words and the blanks after them.
fn banner_text(line: &[u8]) -> &[u8]
    ensures { result.now ≡ banner_text line.now }
{
    let Some((_, rest)) = first_word(line) else {
        return &[];
    };
    let Some((_, rest)) = first_word(rest) else {
        return &[];
    };
    without_blanks(rest)
}

/// The delimiter that a banner's text begins with, and what follows it.
fn split_text(text: &[u8]) -> (Delimiter, &[u8])
    ensures delimiter { result.0 ≡ delimiter text.now }
    ensures rest { result.1.now ≡ drop (size (delimiter text.now)) text.now }
{
    match text {
        [] => (Delimiter::Missing, text),
        [b'^', b'C', rest @ ..] => (Delimiter::Pair, rest),
        [byte, rest @ ..] => (Delimiter::Byte(*byte), rest),
    }
}

/// What ends the banner that a line begins, unless it ends on the same line.
pub(crate) fn begun(line: &[u8]) -> Option<Delimiter>
    ensures { result ≡ begun (banner_text line.now) }
{
    let (delimiter, rest) = split_text(banner_text(line));
    if stands(delimiter, rest) {
        None
    } else {
        Some(delimiter)
    }
}
