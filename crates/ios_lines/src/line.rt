//! Lines and their words.

use arc_base::{List, Span};

/// A line of a router file. Places are those of the file's bytes, counted from 0; lines are
/// numbered from 1.
#[derive(Debug, Drop)]
pub struct Line {
    /// Its bytes without its end.
    pub span: Span,
    /// The number of bytes of its end: 1 for a line feed, 2 for a carriage return before that, and
    /// 0 for none.
    pub end: u8,
    /// The number of the line that heads its block, or 0 if it is in none. The lines of a banner,
    /// comments that close a block and top lines that open none are in none. A head is in its own
    /// block.
    pub block: u32,
    /// Whether the line heads a block.
    pub head: bool,
    /// Whether the line is blank, a comment or a banner's. That the words of a line are inert is
    /// not seen here.
    pub inert: bool,
    /// Its words, in order.
    pub words: List<Span>,
}

/// The lines of a router file, in order.
#[derive(Debug, Drop)]
pub struct Lines {
    pub rows: List<Line>,
}
