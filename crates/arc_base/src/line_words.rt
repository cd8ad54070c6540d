//! The lines of a text and the words of a line, one by one from the front.
ghost use Rattle.arc_base.specs.TextLines.{lines, without_return};
ghost use Rattle.arc_base.specs.Words.{words, is_blank};
ghost use Rattle.std.specs.List.{position};
ghost use Rattle.std.specs.Prelude.{◌≡◌, ◌<◌, ◌≤◌, ◌+◌, [], ◌∷◌, length, IfSome, IfNone, not};

use crate::cut::cut_at;

/// Whether a byte separates words: a space or a tab.
fn is_blank(byte: u8) -> bool
    ensures { result ≡ is_blank byte }
{
    byte == b' ' || byte == b'\t'
}

/// The index of the first byte that is no blank.
fn word_start(line: &[u8]) -> Option<usize>
    ensures { result ≡ position (λ b. not (is_blank b)) line.now }
{
    line.iter().position(|byte| !is_blank(*byte))
}

/// The index of the first blank.
fn word_end(line: &[u8]) -> Option<usize>
    ensures { result ≡ position is_blank line.now }
{
    line.iter().position(|byte| is_blank(*byte))
}

/// The first line of a text that is not empty, without its line feed, and what follows that.
pub fn first_line(text: &[u8]) -> (&[u8], &[u8])
    requires { 0 < length text.now }
    ensures lines { lines text.now ≡ result.0.now ∷ lines result.1.now }
    ensures shorter { length result.0.now + length result.1.now ≤ length text.now }
    ensures rest { length result.1.now < length text.now }
{
    match cut_at(text, b'\n') {
        Some(parts) => parts,
        None => text.split_at(text.len()),
    }
}

/// A line without the carriage return at its end, where it has one.
pub fn without_return(line: &[u8]) -> &[u8]
    ensures line { result.now ≡ without_return line.now }
    ensures shorter { length result.now ≤ length line.now }
{
    match line {
        [front @ .., b'\r'] => front,
        _ => line,
    }
}

/// The first word of a line and what follows it, or `None` where the line has no word.
pub fn next_word(line: &[u8]) -> Option<(&[u8], &[u8])>
    ensures none { IfNone result (words line.now ≡ []) }
    ensures word { IfSome result (λ found. words line.now ≡ found.0.now ∷ words found.1.now) }
    ensures shorter { IfSome result (λ found. length found.1.now < length line.now) }
{
    let start = word_start(line)?;
    let (_, rest) = line.split_at(start);
    match word_end(rest) {
        Some(end) => Some(rest.split_at(end)),
        None => Some(rest.split_at(rest.len())),
    }
}
