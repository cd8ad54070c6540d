//! The line of a file that a refusal names, and the word that is wrong in it.
ghost use Rattle.ios_lines.specs.Lines.{AreLinesOf};
ghost use Rattle.std.specs.Prelude.{◌<◌, ◌^◌, length};

use ios_config::opened_by;
use ios_lines::{Line, Lines, cut};
use ios_words::{BlockKind, WordFault, command};
use std::alloc::Global;

/// The line of this number, counted from 1, without its end.
pub fn line_at(text: &[u8], number: u32) -> Option<&[u8]> {
    let place = (number as usize).checked_sub(1)?;
    let line = text.split(|byte| *byte == b'\n').nth(place)?;
    Some(line.strip_suffix(b"\r").unwrap_or(line))
}

/// The kind of block that a line is in.
fn block_of(alloc: Global, text: &[u8], lines: &Lines, line: &Line) -> BlockKind
    requires { AreLinesOf text.now lines.now }
{
    if line.head || line.block == 0 {
        return BlockKind::Top;
    }
    let Some(head) = lines.rows.get(line.block - 1) else {
        return BlockKind::Inert;
    };
    match command(alloc, text, head, BlockKind::Top) {
        Ok(opening) => opened_by(&opening),
        Err(_) => BlockKind::Inert,
    }
}

/// The word that is out of its form or range, or one too many, in the line of this number of a
/// router file, counted from 1. It is empty if a word is missing at the end of the line.
pub fn wrong_word(alloc: Global, text: &[u8], number: u32) -> Option<&[u8]>
    requires { length text.now < 2 ^ 32 }
{
    let lines = cut(alloc, text).ok()?;
    let line = lines.rows.get(number.checked_sub(1)?)?;
    let block = block_of(alloc, text, &lines, line);
    let Err(WordFault::BadWord(place)) = command(alloc, text, line, block) else {
        return None;
    };
    match line.words.get(place.checked_sub(1)?) {
        Some(span) => text.get(span.from as usize..span.to as usize),
        None => Some(b""),
    }
}
