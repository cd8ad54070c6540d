//! From what `clap` found to the command: the row of its name, and the reader of that row.
ghost use Rattle.clap.specs.Words.{first_of, found_of, rows_of, subcommand_rows_of};
ghost use Rattle.command_words.specs.Commands.{command_by};
ghost use Rattle.command_words.specs.Matched.{matched_command, matched_named};
ghost use Rattle.std.specs.Prelude.{◌≡◌, IfOk};
ghost use Rattle.std.specs.Result.{result_ok};

use crate::commands::Command;
use crate::forms::{CommandKind, form_named};
use crate::matched::{WrongValue, read, value};
use crate::wrong::{WrongWord, WrongWords};
use arc_base::{Memory, Name};
use clap::ArgMatches;
use std::alloc::Global;

/// The value that is wrong, with its word.
fn wrong_word(
    alloc: Global,
    found: &ArgMatches<'_>,
    wrong: WrongValue,
) -> Result<WrongWords, Memory> {
    let word = value(found, wrong.name).unwrap_or("");
    Ok(WrongWords::Value(WrongWord {
        name: wrong.name,
        word: Name::make(alloc, word.as_bytes())?,
        fault: wrong.fault,
    }))
}

/// The command of this kind, or else the word that is wrong.
fn read_or_word(
    alloc: Global,
    kind: CommandKind,
    found: &ArgMatches<'_>,
) -> Result<Result<Command, WrongWords>, Memory>
    ensures { IfOk result (λ read. result_ok read
        ≡ command_by kind (λ name. first_of name (rows_of (found_of found.now)))) }
{
    match read(alloc, kind, found) {
        Ok(Ok(command)) => Ok(Ok(command)),
        Ok(Err(wrong)) => Ok(Err(wrong_word(alloc, found, wrong)?)),
        Err(memory) => Err(memory),
    }
}

/// The command of this name, with the values that `clap` found.
fn named(
    alloc: Global,
    name: &str,
    found: &ArgMatches<'_>,
) -> Result<Result<Command, WrongWords>, Memory>
    ensures { IfOk result (λ read. result_ok read
        ≡ matched_named name.now (rows_of (found_of found.now))) }
{
    match form_named(name) {
        Some(form) => read_or_word(alloc, form.kind, found),
        None => Ok(Err(WrongWords::NoCommand)),
    }
}

/// The command with the values that `clap` found, each read.
pub fn command_of_matches(
    alloc: Global,
    matches: &ArgMatches<'_>,
) -> Result<Result<Command, WrongWords>, Memory>
    ensures { IfOk result (λ read. result_ok read
        ≡ matched_command (subcommand_rows_of matches.now)) }
{
    let Some((name, found)) = matches.subcommand() else {
        return Ok(Err(WrongWords::NoCommand));
    };
    named(alloc, name, found)
}
