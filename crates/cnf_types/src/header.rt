//! The header of a DIMACS text.
ghost use Rattle.arc_base.specs.Words.{words};
ghost use Rattle.cnf_types.specs.Dimacs.{count, header, is_comment};
ghost use Rattle.std.specs.Prelude.{◌≡◌, ◌<◌, [], Some, None};

use arc_base::{natural, next_word};

/// What a header says.
#[derive(Clone, Copy, Debug, PartialEq, Eq)]
pub struct Header {
    pub vars: u64,
    pub clauses: u64,
}

/// A number of 1 to 18 digits.
fn count(word: &[u8]) -> Option<u64>
    ensures { result ≡ count word.now }
{
    if word.len() <= 18 {
        natural(word, i64::MAX as u64)
    } else {
        None
    }
}

/// Whether a line of a DIMACS text or a proof log is a comment.
pub fn is_comment(line: &[u8]) -> bool
    ensures { result ≡ is_comment line.now }
{
    match line {
        [first, ..] => *first == b'c',
        [] => false,
    }
}

/// The header that a line is.
pub(crate) fn header_of(line: &[u8]) -> Option<Header>
    ensures { result ≡ header (words line.now) }
{
    let (p, rest) = next_word(line)?;
    let (cnf, rest) = next_word(rest)?;
    let (vars, rest) = next_word(rest)?;
    let (clauses, rest) = next_word(rest)?;
    if next_word(rest).is_some() || p != b"p".as_slice() || cnf != b"cnf".as_slice() {
        return None;
    }
    Some(Header {
        vars: count(vars)?,
        clauses: count(clauses)?,
    })
}
