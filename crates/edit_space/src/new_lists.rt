//! The new lists that the edits make, with their names.
ghost use Rattle.arc_base.specs.Numbered.{placed};
ghost use Rattle.edit_list.specs.NewLists.{new_route_list, new_packet_list, new_lists};
ghost use Rattle.edit_space.specs.Working.{AreChanges, AreNewNames, AreNamed, HasNext, AreMade};
ghost use Rattle.net_model.specs.Validity.{IsValid};
ghost use Rattle.std.specs.List.{filter_map};
ghost use Rattle.std.specs.Prelude.{◌≡◌, ◌<◌, ◌+◌, ◌^◌, [], Some, All, length, slice_get};
ghost use Rattle.std.specs.Prelude.{slice_set, slice_index, slice_index_or, IfOk, OnOk};

use crate::changes::Changes;
use crate::names::free_names;
use arc_base::groups::{append, grouped, is_filled, things_at};
use arc_base::{Face, List, Memory, Name};
use edit_list::NewList;
use net_model::{FaceRow, Network, SessionRow};
use std::alloc::Global;

/// A new list with its name and the place of its router.
#[derive(Debug, Drop)]
pub struct Named {
    pub router: u32,
    pub list: NewList,
    pub name: Name,
}

/// The new route list of a session, if the edits make one.
fn new_route_list(net: &Network, changes: &Changes, session: &SessionRow) -> Option<(u32, NewList)>
    requires { AreChanges net.now changes.now }
    ensures { result ≡ new_route_list net.now changes.now.edits.items session.now }
{
    let face = net.faces.get(session.face.0)?;
    if !is_filled(&changes.new_routes, session.face.0) {
        return None;
    }
    Some((face.router.0, NewList::Route(session.face)))
}

/// The new packet list of the interface at a place, if the edits make one.
fn new_packet_list(
    net: &Network,
    changes: &Changes,
    place: u32,
    face: &FaceRow,
) -> Option<(u32, NewList)>
    requires changes { AreChanges net.now changes.now }
    requires within { place < length net.now.faces }
    ensures { result ≡ new_packet_list changes.now.edits.items (place, face.now) }
{
    if !is_filled(&changes.new_packets, place) {
        return None;
    }
    Some((face.router.0, NewList::Packet(Face(place))))
}

fn new_route_lists(
    alloc: Global,
    net: &Network,
    changes: &Changes,
    sessions: &[SessionRow],
) -> Result<Vec<(u32, NewList)>, Memory>
    requires { AreChanges net.now changes.now }
    ensures { IfOk result (λ lists.
        lists.items ≡ filter_map (new_route_list net.now changes.now.edits.items) sessions.now) }
{
    Ok(
        sessions
            .iter()
            .filter_map(|s| new_route_list(net, changes, s))
            .collect(alloc)?,
    )
}

fn new_packet_lists(
    alloc: Global,
    net: &Network,
    changes: &Changes,
    faces: &[FaceRow],
) -> Result<Vec<(u32, NewList)>, Memory>
    requires changes { AreChanges net.now changes.now }
    requires faces { faces.now ≡ net.now.faces }
    requires few { length faces.now < 2 ^ 32 }
    ensures { IfOk result (λ lists.
        lists.items ≡ filter_map (new_packet_list changes.now.edits.items) (placed faces.now)) }
{
    let mut lists = Vec::new(alloc);
    for (place, face) in faces.iter().enumerate() {
        if let Some(list) = new_packet_list(net, changes, place as u32, face) {
            lists.push(list)?;
        }
    }
    Ok(lists)
}

/// All new lists, each with the place of its router.
pub fn lists_made(
    alloc: Global,
    net: &Network,
    changes: &Changes,
) -> Result<Vec<(u32, NewList)>, Memory>
    requires { AreChanges net.now changes.now }
    ensures lists { IfOk result (λ lists. lists.items ≡ new_lists net.now changes.now.edits.items) }
    ensures few { IfOk result (λ lists. length lists.items < 2 ^ 33) }
{
    let mut lists = new_route_lists(alloc, net, changes, net.sessions.slice())?;
    let packets = new_packet_lists(alloc, net, changes, net.faces.slice())?;
    append(&mut lists, &packets)?;
    Ok(lists)
}

/// For each router the names of its new lists.
pub fn new_names(
    alloc: Global,
    net: &Network,
    lists: &[(u32, NewList)],
) -> Result<Vec<List<Name>>, Memory>
    requires { length lists.now < 2 ^ 33 }
    ensures { IfOk result (λ names. AreNewNames net.now lists.now names.items) }
{
    let groups = grouped(alloc, net.routers.len(), lists)?;
    let mut names = Vec::new(alloc);
    for (place, router) in net.routers.slice().iter().enumerate() {
        let count = things_at(&groups, place as u32).len();
        names.push(free_names(alloc, &router.names, count)?)?;
    }
    Ok(names)
}

/// The name of the router's new list with this number.
fn name_at(alloc: Global, names: &[List<Name>], router: u32, next: u32) -> Result<Name, Memory>
    requires router { router < length names.now }
    requires next { next < length (slice_index_or names.now router []) }
    ensures name { IfOk result (λ name.
        slice_get (slice_index_or names.now router []) next ≡ Some name) }
    ensures bound { next + 1 < 2 ^ 32 }
{
    let names = names[router as usize].slice();
    Name::make(alloc, names[next as usize].bytes())
}

/// The name of the next new list of a router, which is used up.
fn take_name(
    alloc: Global,
    names: &[List<Name>],
    used: &mut Vec<u32>,
    router: u32,
) -> Result<Name, Memory>
    requires { HasNext names.now used.old.items router }
    ensures used { OnOk result
        (used.new.items ≡ slice_set used.old.items router (slice_index used.old.items router + 1)) }
    ensures name { IfOk result (λ name.
        slice_get (slice_index_or names.now router []) (slice_index used.old.items router)
        ≡ Some name) }
{
    let at = router as usize;
    let next = used[at];
    let name = name_at(alloc, names, router, next)?;
    used[at] = next + 1;
    Ok(name)
}

/// The new lists with their names.
fn named_lists(
    alloc: Global,
    net: &Network,
    names: &[List<Name>],
    lists: &[(u32, NewList)],
) -> Result<Vec<Named>, Memory>
    requires within { All (λ list. list.0 < length net.now.routers) lists.now }
    requires names { AreNewNames net.now lists.now names.now }
    ensures { IfOk result (λ named. AreNamed lists.now names.now named.items) }
{
    let mut used = Vec::from_elem(alloc, 0, net.routers.len() as usize)?;
    let mut named = Vec::new(alloc);
    for (router, list) in lists {
        let name = take_name(alloc, names, &mut used, *router)?;
        named.push(Named {
            router: *router,
            list: *list,
            name,
        })?;
    }
    Ok(named)
}

/// For each router the names of its new lists, and all new lists with their names.
pub fn new_named(
    alloc: Global,
    net: &Network,
    changes: &Changes,
) -> Result<(Vec<List<Name>>, Vec<Named>), Memory>
    requires valid { IsValid net.now }
    requires changes { AreChanges net.now changes.now }
    ensures { IfOk result (λ made.
        AreMade net.now changes.now.edits.items made.0.items made.1.items) }
{
    let lists = lists_made(alloc, net, changes)?;
    let names = new_names(alloc, net, &lists)?;
    let named = named_lists(alloc, net, &names, &lists)?;
    Ok((names, named))
}
