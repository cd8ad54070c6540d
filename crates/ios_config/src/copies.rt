//! Copies of commands.
ghost use Rattle.ios_config.specs.Texts.{given};
ghost use Rattle.std.specs.Prelude.{◌≡◌, IfOk};

use crate::commands::FileCommand;
use crate::settings::Given;
use arc_base::{Memory, Name};
use ios_words::Command;
use std::alloc::Global;

/// A copy of a name.
fn copy_name(alloc: Global, name: &Name) -> Result<Name, Memory>
    ensures { IfOk result (λ copy. copy ≡ name.now) }
{
    Name::make(alloc, name.bytes())
}

/// A copy of a name, if there is one.
fn copy_option(alloc: Global, name: &Option<Name>) -> Result<Option<Name>, Memory>
    ensures { IfOk result (λ copy. copy ≡ name.now) }
{
    match name {
        Some(name) => Ok(Some(copy_name(alloc, name)?)),
        None => Ok(None),
    }
}

/// A copy of a command.
fn copy(alloc: Global, command: &Command) -> Result<Command, Memory>
    ensures { IfOk result (λ copy. copy ≡ command.now) }
{
    Ok(match command {
        Command::Hostname(name) => Command::Hostname(copy_name(alloc, name)?),
        Command::Interface(name) => Command::Interface(copy_name(alloc, name)?),
        Command::RouterOspf(number) => Command::RouterOspf(*number),
        Command::RouterBgp(number) => Command::RouterBgp(*number),
        Command::ListBlock(extended, name) => Command::ListBlock(
            *extended,
            copy_name(alloc, name)?,
        ),
        Command::ListLine(name, entry) => Command::ListLine(copy_name(alloc, name)?, *entry),
        Command::PrefixLine(name, number, entry) => {
            Command::PrefixLine(copy_name(alloc, name)?, *number, *entry)
        }
        Command::Address(addr, len) => Command::Address(*addr, *len),
        Command::NoAddress => Command::NoAddress,
        Command::Shutdown(down) => Command::Shutdown(*down),
        Command::Bandwidth(kilobits) => Command::Bandwidth(*kilobits),
        Command::Cost(cost) => Command::Cost(*cost),
        Command::Area(area) => Command::Area(*area),
        Command::Point(point) => Command::Point(*point),
        Command::Group(name, inbound) => Command::Group(copy_name(alloc, name)?, *inbound),
        Command::Covers(prefix, area) => Command::Covers(*prefix, *area),
        Command::Passive(passive, name) => Command::Passive(*passive, copy_option(alloc, name)?),
        Command::Reference(bandwidth) => Command::Reference(*bandwidth),
        Command::RouterId(id) => Command::RouterId(*id),
        Command::RemoteAs(peer, asn) => Command::RemoteAs(*peer, *asn),
        Command::NeighborDown(peer, down) => Command::NeighborDown(*peer, *down),
        Command::NeighborList(peer, name) => Command::NeighborList(*peer, copy_name(alloc, name)?),
        Command::Tells(prefix) => Command::Tells(*prefix),
        Command::Entry(number, entry) => Command::Entry(*number, *entry),
        Command::Inert => Command::Inert,
    })
}

/// The command with its line.
pub fn given(alloc: Global, c: &FileCommand) -> Result<Given<Command>, Memory>
    ensures { IfOk result (λ copy. copy ≡ given c.now) }
{
    Ok(Given {
        value: copy(alloc, &c.command)?,
        line: c.line,
    })
}
