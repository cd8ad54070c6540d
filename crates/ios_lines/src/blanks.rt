//! Blanks and the words between them.
ghost use Rattle.arc_base.specs.Words.{is_blank, words};
ghost use Rattle.ios_lines.specs.Banners.{after_word, skip};
ghost use Rattle.ios_lines.specs.Kinds.{is_indented, is_mark};
ghost use Rattle.std.specs.List.{position};
ghost use Rattle.std.specs.Prelude.{◌≡◌, ◌∷◌, [], MatchOption, not};

/// Whether a byte separates words.
pub(crate) fn is_blank(byte: u8) -> bool
    ensures { result ≡ is_blank byte }
{
    byte == b' ' || byte == b'\t'
}

/// Whether a line begins with a blank.
pub(crate) fn is_indented(line: &[u8]) -> bool
    ensures { result ≡ is_indented line.now }
{
    match line {
        [byte, ..] => is_blank(*byte),
        [] => false,
    }
}

/// Whether a word begins a comment.
pub(crate) fn is_mark(word: &[u8]) -> bool
    ensures { result ≡ is_mark word.now }
{
    match word {
        [byte, ..] => *byte == b'!',
        [] => false,
    }
}

/// The index of the first byte of a line that is no blank.
fn word_start(line: &[u8]) -> Option<usize>
    ensures { result ≡ position (λ b. not (is_blank b)) line.now }
{
    line.iter().position(|byte| !is_blank(*byte))
}

/// The index of the first blank of a line.
fn first_blank(line: &[u8]) -> Option<usize>
    ensures { result ≡ position is_blank line.now }
{
    line.iter().position(|byte| is_blank(*byte))
}

/// The first word of a line, and the rest of the line.
pub(crate) fn first_word(line: &[u8]) -> Option<(&[u8], &[u8])>
    ensures words { MatchOption result (words line.now ≡ []) (λ cut.
        words line.now ≡ cut.0.now ∷ words cut.1.now) }
    ensures none { MatchOption result (skip is_blank line.now ≡ []) (λ cut.
        cut.1.now ≡ after_word line.now) }
{
    let start = word_start(line)?;
    let (_, tail) = line.split_at(start);
    let end = first_blank(tail).unwrap_or(tail.len());
    Some(tail.split_at(end))
}

/// A line without the blanks that it begins with.
pub(crate) fn without_blanks(line: &[u8]) -> &[u8]
    ensures { result.now ≡ skip is_blank line.now }
{
    match word_start(line) {
        Some(start) => &line[start..],
        None => &[],
    }
}
