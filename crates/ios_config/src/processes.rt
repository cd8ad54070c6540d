//! The routing processes of a file.
ghost use Rattle.ios_config.specs.Seen.{commands_seen};
ghost use Rattle.ios_config.specs.Texts.{given, last_line, process_of};
ghost use Rattle.std.specs.Prelude.{◌≡◌, IfOk, map, option_to_list};

use crate::commands::FileCommand;
use crate::copies::given;
use crate::settings::{Given, ProcessKind, ProcessText};
use arc_base::{List, Memory};
use ios_words::Command;
use std::alloc::Global;

/// The commands with their lines.
fn all_given(alloc: Global, commands: &[&FileCommand]) -> Result<List<Given<Command>>, Memory>
    ensures { IfOk result (λ found. found ≡ map given (commands_seen commands.now)) }
{
    let mut found = Vec::new(alloc);
    for command in commands {
        found.push(given(alloc, command)?)?;
    }
    List::of(found)
}

/// The line of the last command.
fn last_line(commands: &[&FileCommand]) -> u32
    ensures { result ≡ last_line (commands_seen commands.now) }
{
    match commands {
        [.., last] => last.line,
        [] => 0,
    }
}

/// The process that a group of commands is, if it is one.
pub fn process_of(alloc: Global, group: &[&FileCommand]) -> Result<Option<ProcessText>, Memory>
    ensures { IfOk result (λ found. option_to_list found ≡ process_of (commands_seen group.now)) }
{
    let (head, rest) = match group {
        [head, rest @ ..] => (head, rest),
        [] => return Ok(None),
    };
    let (kind, number) = match &head.command {
        Command::RouterOspf(number) => (ProcessKind::Ospf, *number),
        Command::RouterBgp(number) => (ProcessKind::Bgp, *number),
        _ => return Ok(None),
    };
    Ok(Some(ProcessText {
        kind,
        number,
        head: head.line,
        last: last_line(group),
        lines: all_given(alloc, rest)?,
    }))
}
