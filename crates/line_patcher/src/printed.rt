//! The line of each command that edits write.
ghost use Rattle.ios_words.specs.Printed.{route_text};
ghost use Rattle.line_patcher.specs.Written.{home, is_inert, line_of};
ghost use Rattle.std.specs.Prelude.{◌≡◌, ◌++◌, OnOk};

use arc_base::{Memory, Prefix};
use ios_words::{BlockKind, Command, RouteText, print};
use std::alloc::Global;

/// The kind of block in which edits write the command.
fn home(command: &Command) -> BlockKind
    ensures { result ≡ home command.now }
{
    match command {
        Command::Passive(_, _) => BlockKind::Ospf,
        Command::NeighborDown(_, _) | Command::NeighborList(_, _) => BlockKind::Bgp,
        Command::Group(_, _) => BlockKind::Interface,
        Command::Entry(_, _) => BlockKind::Extended,
        _ => BlockKind::Top,
    }
}

fn is_inert(command: &Command) -> bool
    ensures { result ≡ is_inert command.now }
{
    match command {
        Command::Inert => true,
        _ => false,
    }
}

/// Adds the line of a command without its end.
pub fn push_line(alloc: Global, text: &mut Vec<u8>, command: &Command) -> Result<(), Memory>
    ensures { OnOk result (text.new.items ≡ text.old.items ++ line_of command.now) }
{
    if is_inert(command) {
        text.extend_from_slice(b"!")?;
        Ok(())
    } else {
        print(alloc, text, home(command), command)
    }
}

/// What the entry of a prefix list says that is for one prefix alone.
pub fn route_text(permit: bool, prefix: &Prefix) -> RouteText
    ensures { result ≡ route_text permit prefix.now }
{
    RouteText {
        permit,
        prefix: *prefix,
        low: prefix.len,
        high: prefix.len,
    }
}
