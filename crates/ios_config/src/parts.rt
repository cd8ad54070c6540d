//! The commands of a file by their blocks and lists.
ghost use Rattle.ios_config.specs.Groups.{part_of, groups};
ghost use Rattle.ios_config.specs.Seen.{part_seen, group_list};
ghost use Rattle.std.specs.Prelude.{◌≡◌, ◌<◌, [], ◌∷◌, ◌++◌, IfOk, OnOk, length, slice_set};
ghost use Rattle.std.specs.Prelude.{slice_index_or};

use crate::commands::FileCommand;
use arc_base::Memory;
use indexmap::IndexSet;
use ios_words::Command;
use std::alloc::Global;

/// Where a command belongs: to the block of this head, or to the list of this name that is written
/// as lines.
#[derive(Clone, Copy, Debug, PartialEq, Eq, Hash)]
pub enum Part<'a> {
    Block(u32),
    Lines(&'a [u8]),
    PrefixLines(&'a [u8]),
}

/// The part of a command.
fn part_of(command: &FileCommand) -> Part<'_>
    ensures { part_seen result ≡ part_of command.now }
{
    match &command.command {
        Command::ListLine(name, _) => Part::Lines(name.bytes()),
        Command::PrefixLine(name, _, _) => Part::PrefixLines(name.bytes()),
        _ => Part::Block(command.block),
    }
}

/// Adds a command to the group at a place.
fn add<'a>(
    groups: &mut Vec<Vec<&'a FileCommand>>,
    place: usize,
    command: &'a FileCommand,
) -> Result<(), Memory>
    requires { place < length groups.old.items }
    ensures { OnOk result
        (group_list groups.new.items ≡ slice_set (group_list groups.old.items) place
        (slice_index_or (group_list groups.old.items) place [] ++ command.now ∷ [])) }
{
    let group: &mut Vec<&'a FileCommand> = &mut groups[place];
    group.push(command)?;
    Ok(())
}

/// The commands of each part, in the order of the parts' first commands.
pub fn groups<'a>(
    alloc: Global,
    commands: &'a [FileCommand],
) -> Result<Vec<Vec<&'a FileCommand>>, Memory>
    ensures { IfOk result (λ found. group_list found.items ≡ groups commands.now) }
{
    let mut parts = IndexSet::new(alloc);
    let mut groups = Vec::new(alloc);
    for command in commands {
        let (place, new) = parts.insert_full(part_of(command))?;
        if new {
            groups.push(Vec::new(alloc))?;
        }
        add(&mut groups, place, command)?;
    }
    Ok(groups)
}
