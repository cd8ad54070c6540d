//! The command line as `clap` knows it: the table of the commands, row by row. Help is no command
//! and no flag here: a request for it is refused as any other word, so that it matches no command.
ghost use Rattle.clap.specs.Simple.{app_of, with_rule, with_subcommand};
ghost use Rattle.clap.specs.Words.{rule_of};
ghost use Rattle.command_words.specs.Commands.{form_of_row};
ghost use Rattle.std.specs.Prelude.{◌≡◌, IfOk, fold, map, false, true};
ghost use Rattle.command_words.specs.Grammar.{bare, command_app, option, positional, with_form};
ghost use Rattle.command_words.specs.Grammar.{with_option, with_place};

use crate::forms::{CommandForm, CommandOption};
use arc_base::Memory;
use clap::{Arg, Command};
use std::alloc::Global;

/// A word that a command requires in its place.
fn positional<'a>(alloc: Global, id: &'a str) -> Arg<'a>
    ensures rule { rule_of result ≡ positional id.entry.now }
    ensures local { result.global ≡ false }
{
    Arg::new(alloc, id).required(true)
}

/// An option that takes one value.
fn option<'a>(alloc: Global, name: &'a str, is_needed: bool) -> Arg<'a>
    ensures rule { rule_of result ≡ option is_needed name.entry.now }
    ensures local { result.global ≡ false }
{
    Arg::new(alloc, name).long(name).required(is_needed)
}

/// The command with one more argument, which holds for it alone.
fn with<'a>(command: Command<'a>, arg: Arg<'a>) -> Result<Command<'a>, Memory>
    requires local { arg.global ≡ false }
    ensures { IfOk result (λ more.
        app_of more ≡ with_rule (app_of command.entry) (rule_of arg.entry)) }
{
    Ok(command.arg(arg)?)
}

/// The command with a word for each of these places.
fn with_places<'a>(
    alloc: Global,
    command: Command<'a>,
    places: &'a [&'a str],
) -> Result<Command<'a>, Memory>
    ensures { IfOk result (λ more.
        app_of more ≡ fold with_place (app_of command.entry)
        (map (λ place. place.now) places.entry.now)) }
{
    let mut whole = command;
    for place in places {
        whole = with(whole, positional(alloc, place))?;
    }
    Ok(whole)
}

/// The command with these options.
fn with_options<'a>(
    alloc: Global,
    command: Command<'a>,
    options: &'a [CommandOption],
    are_needed: bool,
) -> Result<Command<'a>, Memory>
    ensures { IfOk result (λ more.
        app_of more ≡ fold (with_option are_needed) (app_of command.entry)
        (map (λ choice. choice.name.now) options.entry.now)) }
{
    let mut whole = command;
    for choice in options {
        whole = with(whole, option(alloc, choice.name, are_needed))?;
    }
    Ok(whole)
}

/// The command of a row.
fn command_of<'a>(alloc: Global, form: &'a CommandForm) -> Result<Command<'a>, Memory>
    ensures { IfOk result (λ command. app_of command ≡ command_app (form_of_row form.entry.now)) }
{
    let command = Command::new(alloc, form.name);
    let command = with_places(alloc, command, form.places)?;
    let command = with_options(alloc, command, form.needed, true)?;
    with_options(alloc, command, form.optional, false)
}

/// The command with one more below it.
fn above<'a>(command: Command<'a>, below: Command<'a>) -> Result<Command<'a>, Memory>
    requires plain { (app_of below).top.is_plain ≡ true }
    ensures { IfOk result (λ more.
        app_of more ≡ with_subcommand (app_of command.entry) (app_of below.entry).top) }
{
    Ok(command.subcommand(below)?)
}

/// `arcv` with no commands yet, of which one is required.
fn bare<'a>(alloc: Global) -> Command<'a>
    ensures { app_of result ≡ bare }
{
    Command::new(alloc, "arcv")
        .no_binary_name(true)
        .disable_help_flag(true)
        .disable_help_subcommand(true)
        .subcommand_required(true)
}

/// The command with that of one more row below it.
fn with_form<'a>(
    alloc: Global,
    command: Command<'a>,
    form: &'a CommandForm,
) -> Result<Command<'a>, Memory>
    ensures { IfOk result (λ more.
        app_of more ≡ with_form (app_of command.entry) (form_of_row form.entry.now)) }
{
    above(command, command_of(alloc, form)?)
}

/// `arcv` with the commands of these rows, of which one is required.
pub fn command_line<'a>(alloc: Global, forms: &'a [CommandForm]) -> Result<Command<'a>, Memory>
    ensures { IfOk result (λ arcv.
        app_of arcv ≡ fold with_form bare (map form_of_row forms.entry.now)) }
{
    let mut arcv = bare(alloc);
    for form in forms {
        arcv = with_form(alloc, arcv, form)?;
    }
    Ok(arcv)
}
