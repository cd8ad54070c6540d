//! The lists of a file.
ghost use Rattle.ios_config.specs.Seen.{commands_seen};
ghost use Rattle.ios_config.specs.Texts.{is_entry, is_numbered, is_standard, kind_of_number};
ghost use Rattle.ios_config.specs.Texts.{entries, list_text, list_of, entry_number};
ghost use Rattle.std.specs.Prelude.{◌≡◌, IfOk, option_to_list};

use crate::commands::FileCommand;
use crate::copies::given;
use crate::settings::{Given, ListForm, ListKind, ListText};
use arc_base::{List, Memory, Name, read_number};
use ios_words::Command;
use std::alloc::Global;

/// Whether the command is an entry of a list.
fn is_entry(command: &Command) -> bool
    ensures { result ≡ is_entry command.now }
{
    match command {
        Command::Entry(_, _) | Command::ListLine(_, _) | Command::PrefixLine(_, _, _) => true,
        _ => false,
    }
}

/// The number that an entry has of its own.
pub fn entry_number(command: &Command) -> Option<u32>
    ensures { result ≡ entry_number command.now }
{
    match command {
        Command::Entry(number, _) => *number,
        Command::PrefixLine(_, number, _) => *number,
        _ => None,
    }
}

/// Whether the first entry has a number.
fn is_numbered(entries: &[Given<Command>]) -> bool
    ensures { result ≡ is_numbered entries.now }
{
    match entries {
        [first, ..] => entry_number(&first.value).is_some(),
        [] => false,
    }
}

/// Whether this number of an `access-list` is that of a standard one.
fn is_standard(number: u64) -> bool
    ensures { result ≡ is_standard number }
{
    (1 <= number && number <= 99) || (1300 <= number && number <= 1999)
}

/// The kind of the `access-list` of this number.
fn kind_of_number(name: &Name) -> ListKind
    ensures { result ≡ kind_of_number name.now }
{
    match read_number(name.bytes()) {
        Some(number) => {
            if is_standard(number) {
                ListKind::Standard
            } else {
                ListKind::Extended
            }
        }
        None => ListKind::Extended,
    }
}

/// The entries among the commands.
fn entries(alloc: Global, commands: &[&FileCommand]) -> Result<List<Given<Command>>, Memory>
    ensures { IfOk result (λ found. found ≡ entries (commands_seen commands.now)) }
{
    let mut found = Vec::new(alloc);
    for command in commands {
        if is_entry(&command.command) {
            found.push(given(alloc, command)?)?;
        }
    }
    List::of(found)
}

/// The list of this name, kind and form, whose commands these are.
fn list_text(
    alloc: Global,
    name: &Name,
    kind: ListKind,
    form: ListForm,
    commands: &[&FileCommand],
) -> Result<ListText, Memory>
    ensures { IfOk result (λ list.
        list ≡ list_text name.now kind form (commands_seen commands.now)) }
{
    let entries = entries(alloc, commands)?;
    Ok(ListText {
        name: Name::make(alloc, name.bytes())?,
        kind,
        form,
        numbered: is_numbered(entries.slice()),
        entries,
    })
}

/// The list that a group of commands is, if it is one.
pub fn list_of(alloc: Global, group: &[&FileCommand]) -> Result<Option<ListText>, Memory>
    ensures { IfOk result (λ found. option_to_list found ≡ list_of (commands_seen group.now)) }
{
    let (name, kind, form) = match group {
        [first, ..] => match &first.command {
            Command::ListBlock(true, name) => (name, ListKind::Extended, ListForm::Block),
            Command::ListBlock(false, name) => (name, ListKind::Standard, ListForm::Block),
            Command::ListLine(name, _) => (name, kind_of_number(name), ListForm::Lines),
            Command::PrefixLine(name, _, _) => (name, ListKind::Prefix, ListForm::PrefixLines),
            _ => return Ok(None),
        },
        [] => return Ok(None),
    };
    Ok(Some(list_text(alloc, name, kind, form, group)?))
}
