//! The blocks of reports and certificates, each of a policy: yeses of blocked and through, and the
//! block to which a rejected line belongs.

use std::str;

fn number_of(word: &[u8]) -> Option<u64> {
    str::from_utf8(word).ok()?.parse().ok()
}

/// The kind, the answer and the number of witness lines that follow, if the line is the first one
/// of a block.
fn head_of(line: &[u8]) -> Option<(&[u8], &[u8], u64)> {
    let mut words = line.split(|byte| *byte == b' ');
    number_of(words.next()?)?;
    let (kind, answer) = (words.next()?, words.next()?);
    if !matches!(kind, b"reach" | b"blocked" | b"through") {
        return None;
    }
    Some((kind, answer, number_of(words.next()?)?))
}

/// Whether the line begins the block of a blocked or through policy whose answer is yes.
pub fn is_barred(line: &[u8]) -> bool {
    matches!(head_of(line), Some((b"blocked" | b"through", b"yes", _)))
}

/// Whether a line of the text begins the block of a blocked or through policy whose answer is yes.
pub fn has_barred(text: &[u8]) -> bool {
    text.split(|byte| *byte == b'\n').any(is_barred)
}

/// The number and the word of a text `rejected LINE WORD`.
pub fn rejection_of(text: &[u8]) -> Option<(u64, &[u8])> {
    let line = text.strip_suffix(b"\n")?.strip_prefix(b"rejected ")?;
    let mut words = line.split(|byte| *byte == b' ');
    Some((number_of(words.next()?)?, words.next()?))
}

/// How far a certificate was read through the blocks of its policies.
#[derive(Clone, Copy, Debug, PartialEq, Eq)]
pub struct Blocks {
    /// How many blocks have begun.
    begun: u32,
    /// How many lines of the last block are still to come.
    left: u64,
}

impl Blocks {
    /// Before the first line.
    pub fn none() -> Blocks {
        Blocks { begun: 0, left: 0 }
    }

    /// Takes a line that is not rejected, and returns whether a block may still follow.
    pub fn take(&mut self, line: &[u8]) -> bool {
        if self.left > 0 {
            self.left -= 1;
        } else if let Some((_, _, left)) = head_of(line) {
            self.begun = self.begun.saturating_add(1);
            self.left = left;
        }
        line != b"log".as_slice()
    }

    /// The number of the policy, counted from 1, whose block the next line belongs to, where that
    /// line is rejected with this word; `None` if it is not known to belong to a block.
    pub fn policy(&self, line: &[u8], word: &[u8]) -> Option<u32> {
        let next = self.begun.checked_add(1);
        match word {
            b"policy" | b"witness" | b"not-yes" => next,
            b"form" if self.left > 0 => Some(self.begun),
            b"form" if line.first().is_some_and(|byte| byte.is_ascii_digit()) => next,
            _ => None,
        }
    }
}
