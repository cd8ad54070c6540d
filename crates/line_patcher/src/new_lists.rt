//! New lists, and what binds them.
ghost use Rattle.edit_list.specs.After.{every_packet};
ghost use Rattle.edit_space.specs.Working.{AreChanges};
ghost use Rattle.ios_words.specs.Printed.{all_routes};
ghost use Rattle.line_patcher.specs.NewListLines.{deny_prefix, permit_all, new_route_commands};
ghost use Rattle.line_patcher.specs.NewListLines.{new_entry, deny_class, new_entries};
ghost use Rattle.line_patcher.specs.NewListLines.{new_packet_commands, new_list_commands};
ghost use Rattle.line_patcher.specs.NewListLines.{filter_command, group_command};
ghost use Rattle.line_patcher.specs.Working.{face_of};
ghost use Rattle.std.specs.List.{filter_map, zip, enumerate_from};
ghost use Rattle.std.specs.Prelude.{false, ◌≡◌, ◌<◌, ◌≤◌, ◌+◌, ◌*◌, ◌^◌, ◌++◌, map, flat_map};
ghost use Rattle.std.specs.Prelude.{length, All, IfOk, OnOk};

use crate::additions::push_some;
use crate::list_kinds::packet_text;
use crate::printed::route_text;
use arc_base::groups::things_at;
use arc_base::limits::EDIT_LIMIT;
use arc_base::{Memory, Name, Prefix};
use edit_list::NewList;
use edit_space::{Changes, any};
use ios_words::{Command, RouteText, whole};
use net_build::FacePlace;
use net_model::{Class, Network, PacketEntry, Service};
use std::alloc::Global;

/// The entry of a new route list that denies a prefix.
fn deny_prefix(alloc: Global, name: &[u8], place: u32, prefix: &Prefix) -> Result<Command, Memory>
    requires { 5 * place < 2 ^ 32 }
    ensures { IfOk result (λ command. command ≡ deny_prefix name.now (place, prefix.now)) }
{
    let name = Name::make(alloc, name)?;
    Ok(Command::PrefixLine(name, Some(5 * place), route_text(false, prefix)))
}

/// The entry of a new route list that permits all prefixes.
fn permit_all(alloc: Global, name: &[u8], number: u32) -> Result<Command, Memory>
    ensures { IfOk result (λ command. command ≡ permit_all name.now number) }
{
    let name = Name::make(alloc, name)?;
    Ok(Command::PrefixLine(name, Some(number), all_routes()))
}

/// What an entry for all prefixes says.
fn all_routes() -> RouteText
    ensures { result ≡ all_routes }
{
    RouteText {
        permit: true,
        prefix: whole(),
        low: 0,
        high: 32,
    }
}

/// Adds the entries that deny prefixes.
fn push_deny_prefixes(
    alloc: Global,
    commands: &mut Vec<Command>,
    name: &[u8],
    prefixes: &[Prefix],
) -> Result<(), Memory>
    requires { length prefixes.now ≤ EDIT_LIMIT }
    ensures { OnOk result (commands.new.items ≡ commands.old.items ++
        map (deny_prefix name.now) (enumerate_from 1 prefixes.now)) }
{
    for (place, prefix) in prefixes.iter().enumerate() {
        commands.push(deny_prefix(alloc, name, place as u32 + 1, prefix)?)?;
    }
    Ok(())
}

/// Adds a new route list.
fn push_route_list(
    alloc: Global,
    commands: &mut Vec<Command>,
    name: &[u8],
    prefixes: &[Prefix],
) -> Result<(), Memory>
    requires { length prefixes.now ≤ EDIT_LIMIT }
    ensures { OnOk result
        (commands.new.items ≡ commands.old.items ++ new_route_commands name.now prefixes.now) }
{
    push_deny_prefixes(alloc, commands, name, prefixes)?;
    let number = 5 * (prefixes.len() as u32 + 1);
    commands.push(permit_all(alloc, name, number)?)?;
    Ok(())
}

/// An entry of a new packet list.
fn new_entry(entry: &PacketEntry) -> Command
    ensures { result ≡ new_entry entry.now }
{
    Command::Entry(None, packet_text(entry))
}

/// The entry of a new packet list that denies a class.
fn deny_class(class: &Class) -> Command
    ensures { result ≡ deny_class class.now }
{
    new_entry(&PacketEntry {
        permit: false,
        from: class.from,
        to: class.to,
        service: class.service,
    })
}

/// The last entry of a new packet list, which permits every packet.
fn permit_every_packet() -> Command
    ensures { result ≡ new_entry every_packet }
{
    new_entry(&PacketEntry {
        permit: true,
        from: any(),
        to: any(),
        service: Service::whole(),
    })
}

/// Adds the entries of a new packet list.
fn push_new_entries(commands: &mut Vec<Command>, classes: &[Class]) -> Result<(), Memory>
    ensures { OnOk result
        (commands.new.items ≡ commands.old.items ++ new_entries classes.now) }
{
    for class in classes {
        commands.push(deny_class(class))?;
    }
    commands.push(permit_every_packet())?;
    Ok(())
}

/// Adds a new packet list.
fn push_packet_list(
    alloc: Global,
    commands: &mut Vec<Command>,
    name: &[u8],
    classes: &[Class],
) -> Result<(), Memory>
    ensures { OnOk result
        (commands.new.items ≡ commands.old.items ++ new_packet_commands name.now classes.now) }
{
    commands.push(Command::ListBlock(true, Name::make(alloc, name)?))?;
    push_new_entries(commands, classes)?;
    commands.push(Command::Inert)?;
    Ok(())
}

/// Adds a new list.
fn push_new_list(
    alloc: Global,
    commands: &mut Vec<Command>,
    net: &Network,
    changes: &Changes,
    list: NewList,
    name: &[u8],
) -> Result<(), Memory>
    requires changes { AreChanges net.now changes.now }
    requires within { (face_of list).0 < length net.now.faces }
    requires few { length changes.now.edits.items ≤ EDIT_LIMIT }
    ensures { OnOk result (commands.new.items ≡ commands.old.items ++
        new_list_commands changes.now.edits.items list name.now) }
{
    match list {
        NewList::Route(face) => {
            push_route_list(
                alloc,
                commands,
                name,
                things_at(&changes.new_routes, face.0),
            )
        }
        NewList::Packet(face) => {
            push_packet_list(
                alloc,
                commands,
                name,
                things_at(&changes.new_packets, face.0),
            )
        }
    }
}

/// A new list of a router, with its name.
pub type NamedList = (NewList, Name);

/// The new lists with their names.
pub fn named_lists(
    alloc: Global,
    lists: &[NewList],
    names: &[Name],
) -> Result<Vec<NamedList>, Memory>
    requires { length names.now ≡ length lists.now }
    ensures { IfOk result (λ named. named.items ≡ zip lists.now names.now) }
{
    let mut named = Vec::new(alloc);
    for (place, list) in lists.iter().enumerate() {
        named.push((*list, Name::make(alloc, names[place].bytes())?))?;
    }
    Ok(named)
}

/// All new lists of a router.
pub fn commands_of_new_lists(
    alloc: Global,
    net: &Network,
    changes: &Changes,
    named: &[NamedList],
) -> Result<Vec<Command>, Memory>
    requires changes { AreChanges net.now changes.now }
    requires within { All (λ n. (face_of n.0).0 < length net.now.faces) named.now }
    requires few { length changes.now.edits.items ≤ EDIT_LIMIT }
    ensures { IfOk result (λ commands. commands.items
        ≡ flat_map (λ n. new_list_commands changes.now.edits.items n.0 n.1) named.now) }
{
    let mut commands = Vec::new(alloc);
    for (list, name) in named {
        push_new_list(alloc, &mut commands, net, changes, *list, name.bytes())?;
    }
    Ok(commands)
}

/// The command that binds a new route list.
fn filter_command(
    alloc: Global,
    net: &Network,
    list: NewList,
    name: &[u8],
) -> Result<Option<Command>, Memory>
    ensures { IfOk result (λ command. command ≡ filter_command net.now list name.now) }
{
    let NewList::Route(face) = list else {
        return Ok(None);
    };
    let Some(session) = net.session_at(face) else {
        return Ok(None);
    };
    let name = Name::make(alloc, name)?;
    Ok(Some(Command::NeighborList(session.peer, name)))
}

/// Adds the commands that bind new route lists.
pub fn push_filter_commands(
    alloc: Global,
    commands: &mut Vec<Command>,
    net: &Network,
    named: &[NamedList],
) -> Result<(), Memory>
    ensures { OnOk result (commands.new.items ≡ commands.old.items ++
        filter_map (λ n. filter_command net.now n.0 n.1) named.now) }
{
    for (list, name) in named {
        push_some(commands, filter_command(alloc, net, *list, name.bytes())?)?;
    }
    Ok(())
}

/// The command that binds a new packet list, with the last command line of its interface.
fn group_command(
    alloc: Global,
    faces: &[FacePlace],
    list: NewList,
    name: &[u8],
) -> Result<Option<(u32, Command)>, Memory>
    ensures { IfOk result (λ command. command ≡ group_command faces.now list name.now) }
{
    let NewList::Packet(face) = list else {
        return Ok(None);
    };
    let Some(place) = faces.get(face.0 as usize) else {
        return Ok(None);
    };
    let name = Name::make(alloc, name)?;
    Ok(Some((place.last, Command::Group(name, true))))
}

/// Adds the commands that bind new packet lists.
pub fn push_group_commands(
    alloc: Global,
    commands: &mut Vec<(u32, Command)>,
    faces: &[FacePlace],
    named: &[NamedList],
) -> Result<(), Memory>
    ensures { OnOk result (commands.new.items ≡ commands.old.items ++
        filter_map (λ n. group_command faces.now n.0 n.1) named.now) }
{
    for (list, name) in named {
        push_some(commands, group_command(alloc, faces, *list, name.bytes())?)?;
    }
    Ok(())
}
