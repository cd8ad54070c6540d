//! The text of a file with what is added to it. Only here do commands become bytes.
ghost use Rattle.arc_base.specs.Numbered.{of_number, IsTableOf};
ghost use Rattle.ios_lines.specs.Lines.{AreLinesOf};
ghost use Rattle.line_patcher.specs.Patches.{end_of, line_end, row_bytes, ended, following};
ghost use Rattle.line_patcher.specs.Patches.{patched_text};
ghost use Rattle.line_patcher.specs.Working.{LiesWithin, row_around};
ghost use Rattle.line_patcher.specs.Written.{line_of, lines_at};
ghost use Rattle.std.specs.Prelude.{◌≡◌, ◌<◌, ◌-◌, ◌^◌, ◌++◌, ◌∷◌, [], flat_map, length, map, All};
ghost use Rattle.std.specs.Prelude.{IfOk, OnOk, IsTrue};

use crate::additions::NewNumber;
use crate::printed::push_line;
use arc_base::groups::{Group, add, empty_groups, grouped, things_at};
use arc_base::{Memory, Name, push_number};
use ios_lines::{Line, Lines};
use ios_words::Command;
use std::alloc::Global;

/// The commands at each number below the count, which are moved and not copied.
fn commands_at(
    alloc: Global,
    count: u32,
    commands: Vec<(u32, Command)>,
) -> Result<Vec<Group<Command>>, Memory>
    ensures { IfOk result (λ groups.
        IsTableOf count (λ number. of_number number commands.items) groups.items) }
{
    let mut groups = empty_groups(alloc, count)?;
    for (number, command) in commands {
        add(&mut groups, number, command)?;
    }
    Ok(groups)
}

/// What ends the lines of a file: what ends its first line.
fn line_end<'a>(text: &'a [u8], rows: &[Line]) -> &'a [u8]
    requires { All (LiesWithin text.now) rows.now }
    ensures { result.now ≡ line_end text.now rows.now }
{
    match rows.first() {
        Some(row) if row.end != 0 => end_of(text, row),
        _ => b"\n",
    }
}

/// What ends a row.
fn end_of<'a>(text: &'a [u8], row: &Line) -> &'a [u8]
    requires { LiesWithin text.now row.now }
    ensures { result.now ≡ end_of text.now row.now }
{
    let from = row.span.to as usize;
    &text[from..from + row.end as usize]
}

/// Adds the lines of commands, each ended.
fn push_ended(
    alloc: Global,
    text: &mut Vec<u8>,
    end: &[u8],
    commands: &[Command],
) -> Result<(), Memory>
    ensures { OnOk result
        (text.new.items ≡ text.old.items ++ ended end.now (map line_of commands.now)) }
{
    for command in commands {
        push_line(alloc, text, command)?;
        text.extend_from_slice(end)?;
    }
    Ok(())
}

/// Adds the lines of commands, each after an end.
fn push_begun(
    alloc: Global,
    text: &mut Vec<u8>,
    end: &[u8],
    commands: &[Command],
) -> Result<(), Memory>
    ensures { OnOk result (text.new.items ≡
        text.old.items ++ flat_map (λ line. end.now ++ line) (map line_of commands.now)) }
{
    for command in commands {
        text.extend_from_slice(end)?;
        push_line(alloc, text, command)?;
    }
    Ok(())
}

/// Adds the lines of commands after a row with an end of `len` bytes.
fn push_following(
    alloc: Global,
    text: &mut Vec<u8>,
    end: &[u8],
    len: u8,
    commands: &[Command],
) -> Result<(), Memory>
    ensures { OnOk result
        (text.new.items ≡ text.old.items ++ following end.now len (map line_of commands.now)) }
{
    if len == 0 {
        push_begun(alloc, text, end, commands)
    } else {
        push_ended(alloc, text, end, commands)
    }
}

/// Adds the bytes of a row with a number in place of one of its words.
fn push_rewritten(
    alloc: Global,
    new: &mut Vec<u8>,
    text: &[u8],
    row: &Line,
    number: NewNumber,
) -> Result<(), Memory>
    requires { LiesWithin text.now row.now }
    ensures { OnOk result
        (new.new.items ≡ new.old.items ++ row_bytes text.now row.now (number ∷ [])) }
{
    let (from, to) = (row.span.from as usize, row.span.to as usize);
    let Some(word) = row.words.get(number.word) else {
        new.extend_from_slice(&text[from..to])?;
        return Ok(());
    };
    new.extend_from_slice(&text[from..word.from as usize])?;
    push_number(alloc, new, number.number)?;
    new.extend_from_slice(&text[word.to as usize..to])?;
    Ok(())
}

/// Adds the bytes of a row, in which a word may be another number.
fn push_row_bytes(
    alloc: Global,
    new: &mut Vec<u8>,
    text: &[u8],
    row: &Line,
    numbers: &[NewNumber],
) -> Result<(), Memory>
    requires { LiesWithin text.now row.now }
    ensures { OnOk result
        (new.new.items ≡ new.old.items ++ row_bytes text.now row.now numbers.now) }
{
    match numbers.first() {
        Some(number) => push_rewritten(alloc, new, text, row, *number),
        None => {
            new.extend_from_slice(&text[row.span.from as usize..row.span.to as usize])?;
            Ok(())
        }
    }
}

/// What is added at each line.
#[derive(Debug, Drop)]
struct Table {
    before: Vec<Group<Command>>,
    numbers: Vec<Group<NewNumber>>,
    after: Vec<Group<Command>>,
}

/// Appends a row with what is added before it, in it and after it.
fn push_row(
    alloc: Global,
    new: &mut Vec<u8>,
    text: &[u8],
    end: &[u8],
    table: &Table,
    number: u32,
    row: &Line,
) -> Result<(), Memory>
    requires { LiesWithin text.now row.now }
    ensures { OnOk result
        (new.new.items ≡ new.old.items ++ row_around text.now end.now table.now number row.now) }
{
    push_ended(alloc, new, end, things_at(&table.before, number))?;
    push_row_bytes(alloc, new, text, row, things_at(&table.numbers, number))?;
    new.extend_from_slice(end_of(text, row))?;
    push_following(alloc, new, end, row.end, things_at(&table.after, number))
}

/// Whether nothing is added to a file.
fn is_nothing(
    before: &[(u32, Command)],
    numbers: &[(u32, NewNumber)],
    after: &[(u32, Command)],
) -> bool
    ensures before { IsTrue result → before.now ≡ [] }
    ensures numbers { IsTrue result → numbers.now ≡ [] }
    ensures after { IsTrue result → after.now ≡ [] }
{
    before.is_empty() && numbers.is_empty() && after.is_empty()
}

/// The text of a file, of which these are the lines, with what is added to it. A file to which
/// nothing is added is copied as it is.
pub fn patched_text(
    alloc: Global,
    text: &[u8],
    lines: &Lines,
    before: Vec<(u32, Command)>,
    numbers: Vec<(u32, NewNumber)>,
    after: Vec<(u32, Command)>,
) -> Result<Name, Memory>
    requires few { length text.now < 2 ^ 32 - 1 }
    requires lines { AreLinesOf text.now lines.now }
    ensures { IfOk result (λ new. new ≡ patched_text text.now lines.now
        (lines_at before.items) numbers.items (lines_at after.items)) }
{
    if is_nothing(&before, &numbers, &after) {
        return Name::make(alloc, text);
    }
    let rows = lines.rows.slice();
    let count = rows.len() as u32 + 1;
    let table = Table {
        before: commands_at(alloc, count, before)?,
        numbers: grouped(alloc, count, &numbers)?,
        after: commands_at(alloc, count, after)?,
    };
    let end = line_end(text, rows);
    let mut new = Vec::new(alloc);
    for (place, row) in rows.iter().enumerate() {
        push_row(alloc, &mut new, text, end, &table, place as u32 + 1, row)?;
    }
    Ok(Name::of(new))
}
