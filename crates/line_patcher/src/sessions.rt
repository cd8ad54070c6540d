//! The commands that turn sessions.
ghost use Rattle.line_patcher.specs.SessionLines.{session_command};
ghost use Rattle.std.specs.List.{filter_map};
ghost use Rattle.std.specs.Prelude.{◌≡◌, ◌++◌, IfOk, OnOk};

use crate::additions::push_some;
use arc_base::{Face, Memory, Name};
use ios_words::Command;
use net_model::{Network, Protocol};
use std::alloc::Global;

/// The command that turns the session of an interface of the network.
fn session_command(alloc: Global, net: &Network, face: Face) -> Result<Option<Command>, Memory>
    ensures { IfOk result (λ command. command ≡ session_command net.now face.0) }
{
    let Some(row) = net.faces.get(face.0) else {
        return Ok(None);
    };
    match net.protocol {
        Protocol::Ospf => {
            let name = Name::make(alloc, row.name.bytes())?;
            Ok(Some(Command::Passive(!row.passive, Some(name))))
        }
        Protocol::Bgp => match net.session_at(face) {
            Some(session) => Ok(Some(Command::NeighborDown(session.peer, !session.down))),
            None => Ok(None),
        },
    }
}

/// Adds the commands that turn the sessions of these interfaces.
pub fn push_session_commands(
    alloc: Global,
    commands: &mut Vec<Command>,
    net: &Network,
    faces: &[u32],
) -> Result<(), Memory>
    ensures { OnOk result (commands.new.items ≡
        commands.old.items ++ filter_map (session_command net.now) faces.now) }
{
    for face in faces {
        push_some(commands, session_command(alloc, net, Face(*face))?)?;
    }
    Ok(())
}
