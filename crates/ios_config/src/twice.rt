//! Blocks and lists that occur twice.
ghost use Rattle.ios_config.specs.Seen.{stand_seen};
ghost use Rattle.ios_config.specs.Twice.{stand_of, excluded, StandOnce, IsFirstDuplicate};
ghost use Rattle.std.specs.Prelude.{◌≡◌, ◌↔◌, Any, Contains, IfOk, IsTrue, MatchOption, map};
ghost use Rattle.std.specs.Prelude.{option_map};

use crate::commands::FileCommand;
use arc_base::Memory;
use indexmap::IndexSet;
use ios_words::Command;
use std::alloc::Global;

/// What may occur only once in a file: an interface, a process, a list as a block, and a list as
/// lines.
#[derive(Clone, Copy, Debug, PartialEq, Eq, Hash)]
pub enum Stand<'a> {
    Interface(&'a [u8]),
    Ospf(u32),
    Bgp(u32),
    Block(&'a [u8]),
    Lines(&'a [u8]),
}

/// What a command begins that may occur only once.
fn stand_of(command: &Command) -> Option<Stand<'_>>
    ensures { option_map stand_seen result ≡ stand_of command.now }
{
    match command {
        Command::Interface(name) => Some(Stand::Interface(name.bytes())),
        Command::RouterOspf(number) => Some(Stand::Ospf(*number)),
        Command::RouterBgp(number) => Some(Stand::Bgp(*number)),
        Command::ListBlock(_, name) => Some(Stand::Block(name.bytes())),
        Command::ListLine(name, _) => Some(Stand::Lines(name.bytes())),
        _ => None,
    }
}

/// Whether this is there already.
fn stands_as(stands: &IndexSet<Stand<'_>>, stand: Stand<'_>) -> bool
    ensures { IsTrue result ↔ Contains (map stand_seen stands.now.keys) (stand_seen stand.entry) }
{
    stands.contains(&stand)
}

/// Whether something is there already that may not be where this command comes.
fn is_excluded(stands: &IndexSet<Stand<'_>>, command: &Command) -> bool
    ensures { IsTrue result ↔
        Any (λ stand. Contains (map stand_seen stands.now.keys) stand) (excluded command.now) }
{
    match command {
        Command::Interface(name) => stands_as(stands, Stand::Interface(name.bytes())),
        Command::RouterOspf(number) => stands_as(stands, Stand::Ospf(*number)),
        Command::RouterBgp(number) => stands_as(stands, Stand::Bgp(*number)),
        Command::ListBlock(_, name) => {
            stands_as(stands, Stand::Block(name.bytes()))
                || stands_as(stands, Stand::Lines(name.bytes()))
        }
        Command::ListLine(name, _) => stands_as(stands, Stand::Block(name.bytes())),
        _ => false,
    }
}

/// The first line at which a block or list occurs a second time, if there is one.
pub fn first_duplicate(alloc: Global, commands: &[FileCommand]) -> Result<Option<u32>, Memory>
    ensures { IfOk result (λ found.
        MatchOption found (StandOnce commands.now) (IsFirstDuplicate commands.now)) }
{
    let mut stands = IndexSet::new(alloc);
    for c in commands {
        if is_excluded(&stands, &c.command) {
            return Ok(Some(c.line));
        }
        match stand_of(&c.command) {
            Some(stand) => {
                stands.insert(stand)?;
            }
            None => {}
        }
    }
    Ok(None)
}
