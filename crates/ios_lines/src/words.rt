//! The words of a line.
ghost use Rattle.arc_base.specs.Words.{is_blank, words};
ghost use Rattle.ios_lines.specs.Texts.{part};
ghost use Rattle.ios_lines.specs.Words.{AreBlank, AreFilled, AreWords, IsNextWord};
ghost use Rattle.std.specs.Prelude.{◌≡◌, ◌<◌, ◌≤◌, ◌^◌, length, map, slice_index, slice_range};
ghost use Rattle.std.specs.Prelude.{IsTrue, IsFalse, IfOk, MatchOption};

use crate::blanks::is_blank;
use arc_base::{List, Memory, Span};
use std::alloc::Global;

/// The index of the first byte, from a place on, that is no blank, or else where the line ends.
fn blanks_end(bytes: &[u8], from: usize, to: usize) -> usize
    requires order { from ≤ to }
    requires within { to ≤ length bytes.now }
    ensures after { from ≤ result }
    ensures within { result ≤ to }
    ensures blank { AreBlank bytes.now from result }
    ensures stop { result < to → IsFalse (is_blank (slice_index bytes.now result)) }
{
    let mut at = from;
    while at < to && is_blank(bytes[at]) {
        at += 1;
    }
    at
}

/// The index of the first blank from a place on, or else where the line ends.
fn word_end(bytes: &[u8], from: usize, to: usize) -> usize
    requires order { from ≤ to }
    requires within { to ≤ length bytes.now }
    ensures after { from ≤ result }
    ensures within { result ≤ to }
    ensures filled { AreFilled bytes.now from result }
    ensures stop { result < to → IsTrue (is_blank (slice_index bytes.now result)) }
{
    let mut at = from;
    while at < to && !is_blank(bytes[at]) {
        at += 1;
    }
    at
}

/// The first word from a place on.
fn next_word(bytes: &[u8], at: usize, to: usize) -> Option<Span>
    requires order { at ≤ to }
    requires within { to ≤ length bytes.now }
    requires few { length bytes.now < 2 ^ 32 }
    ensures { MatchOption result (AreBlank bytes.now at to) (IsNextWord bytes.now at to) }
{
    let from = blanks_end(bytes, at, to);
    if from == to {
        return None;
    }
    let end = word_end(bytes, from, to);
    Some(Span {
        from: from as u32,
        to: end as u32,
    })
}

/// The words between two places of a text.
pub(crate) fn word_spans(
    alloc: Global,
    bytes: &[u8],
    from: usize,
    to: usize,
) -> Result<List<Span>, Memory>
    requires order { from ≤ to }
    requires within { to ≤ length bytes.now }
    requires few { length bytes.now < 2 ^ 32 }
    ensures spans { IfOk result (AreWords bytes.now from to) }
    ensures texts { IfOk result (λ spans.
        map (part bytes.now) spans ≡ words (slice_range bytes.now from to)) }
{
    let mut words = Vec::new(alloc);
    let mut at = from;
    while let Some(word) = next_word(bytes, at, to) {
        words.push(word)?;
        at = word.to as usize;
    }
    List::of(words)
}
