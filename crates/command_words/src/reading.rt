//! The reading of the words.
ghost use Rattle.command_words.specs.Commands.{command_of, HasLimit};
ghost use Rattle.std.specs.List.{list_all};
ghost use Rattle.std.specs.Prelude.{◌≡◌, IfOk, IfSome, None, Some, if◌then◌else◌, map, option_map};
ghost use Rattle.std.specs.Result.{result_ok};
ghost use Rattle.std.specs.Str.{is_utf8};

use crate::commands::Command;
use crate::forms::command_forms;
use crate::found::command_of_matches;
use crate::grammar::command_line;
use crate::wrong::WrongWords;
use arc_base::{Memory, Name};
use clap::error::ErrorKind;
use std::alloc::Global;

/// The words as texts, if each is one.
fn texts_of<'a>(alloc: Global, words: &'a [Name]) -> Result<Option<Vec<&'a str>>, Memory>
    ensures { IfOk result (λ texts. option_map (λ v. map (λ s. s.now) v.items) texts
        ≡ (if list_all is_utf8 words.entry.now then Some words.entry.now else None)) }
{
    let mut texts = Vec::new(alloc);
    for word in words {
        match std::str::from_utf8(word.bytes()) {
            Ok(text) => texts.push(text)?,
            Err(_) => return Ok(None),
        }
    }
    Ok(Some(texts))
}

/// The command that the words after the program's name match, and else why they match none.
pub fn explain_words(alloc: Global, words: &[Name]) -> Result<Result<Command, WrongWords>, Memory>
    ensures { IfOk result (λ read. result_ok read ≡ command_of words.now) }
{
    let Some(texts) = texts_of(alloc, words)? else {
        return Ok(Err(WrongWords::NotText));
    };
    match command_line(alloc, command_forms())?.try_get_matches_from(texts.as_slice()) {
        Ok(matches) => command_of_matches(alloc, &matches),
        Err(error) => match error.kind() {
            ErrorKind::OutOfMemory => Err(Memory),
            _ => Ok(Err(WrongWords::Form(error))),
        },
    }
}

/// The command that the words after the program's name match, if they match one.
pub fn read_words(alloc: Global, words: &[Name]) -> Result<Option<Command>, Memory>
    ensures command { IfOk result (λ command. command ≡ command_of words.now) }
    ensures limit { IfOk result (λ command. IfSome command HasLimit) }
{
    match explain_words(alloc, words) {
        Ok(read) => Ok(read.ok()),
        Err(memory) => Err(memory),
    }
}
