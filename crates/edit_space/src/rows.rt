//! The routers, interfaces and sessions after edits.
ghost use Rattle.arc_base.specs.Numbered.{placed, is_empty, IsTableOf, EachRow};
ghost use Rattle.edit_list.specs.After.{IsRouterAfter, turned_if, passive_after};
ghost use Rattle.edit_list.specs.Changes.{turns_session, new_classes, new_prefixes};
ghost use Rattle.edit_list.specs.NewLists.{new_names_of};
ghost use Rattle.edit_space.specs.Working.{AreChanges, moved, bound_at, face_after, session_after};
ghost use Rattle.std.specs.Prelude.{◌≡◌, ◌<◌, length, map, not, All, IfOk};

use crate::changes::Changes;
use crate::names::joined_names;
use crate::order::Places;
use arc_base::groups::is_filled;
use arc_base::{Face, List, ListId, Memory, Name};
use net_model::{FaceRow, LinkRow, Network, Protocol, RouterRow, SessionRow};
use std::alloc::Global;

/// The routers after the edits, with the names of their new lists.
pub fn routers_after(
    alloc: Global,
    net: &Network,
    changes: &Changes,
    names: &[List<Name>],
) -> Result<List<RouterRow>, Memory>
    requires { IsTableOf (length net.now.routers)
        (new_names_of net.now changes.now.edits.items) names.now }
    ensures { IfOk result
        (EachRow (IsRouterAfter net.now changes.now.edits.items) net.now.routers) }
{
    let mut routers = Vec::new(alloc);
    for (place, router) in net.routers.slice().iter().enumerate() {
        routers.push(RouterRow {
            name: Name::make(alloc, router.name.bytes())?,
            asn: router.asn,
            names: joined_names(alloc, &router.names, &names[place])?,
        })?;
    }
    List::of(routers)
}

/// Where the list is now that was bound.
fn moved(places: &Places, list: Option<ListId>) -> Option<ListId>
    ensures { result ≡ moved places.now list }
{
    match list {
        Some(id) => places.bound.get(id.0 as usize).map(|place| ListId(*place)),
        None => None,
    }
}

/// Where the list is that is bound at the interface: the new one, or the one that was bound.
fn bound_at(places: &Places, new: bool, face: Face, list: Option<ListId>) -> Option<ListId>
    ensures { result ≡ bound_at places.now new face.0 list }
{
    if new {
        places.new.get(face.0 as usize).map(|place| ListId(*place))
    } else {
        moved(places, list)
    }
}

/// Whether the session of the interface is turned.
fn is_turned(net: &Network, changes: &Changes, face: Face) -> bool
    requires changes { AreChanges net.now changes.now }
    requires within { face.0 < length net.now.faces }
    ensures { result ≡ turns_session changes.now.edits.items face.0 }
{
    changes.turned[face.0 as usize]
}

/// Whether the edits make a new packet list for the interface.
fn has_new_packet_list(net: &Network, changes: &Changes, face: Face) -> bool
    requires changes { AreChanges net.now changes.now }
    requires within { face.0 < length net.now.faces }
    ensures { result ≡ not (is_empty (new_classes changes.now.edits.items face.0)) }
{
    is_filled(&changes.new_packets, face.0)
}

/// Whether the edits make a new route list for the session of the interface.
fn has_new_route_list(net: &Network, changes: &Changes, face: Face) -> bool
    requires changes { AreChanges net.now changes.now }
    requires within { face.0 < length net.now.faces }
    ensures { result ≡ not (is_empty (new_prefixes changes.now.edits.items face.0)) }
{
    is_filled(&changes.new_routes, face.0)
}

/// The flag, or its opposite where it is turned.
fn turned_if(turns: bool, flag: bool) -> bool
    ensures { result ≡ turned_if turns flag }
{
    if turns { !flag } else { flag }
}

fn passive_after(net: &Network, changes: &Changes, place: Face, passive: bool) -> bool
    requires changes { AreChanges net.now changes.now }
    requires within { place.0 < length net.now.faces }
    ensures { result ≡ passive_after net.now.protocol changes.now.edits.items place.0 passive }
{
    match net.protocol {
        Protocol::Ospf => turned_if(is_turned(net, changes, place), passive),
        Protocol::Bgp => passive,
    }
}

fn face_after(
    alloc: Global,
    net: &Network,
    changes: &Changes,
    places: &Places,
    place: Face,
    face: &FaceRow,
) -> Result<FaceRow, Memory>
    requires changes { AreChanges net.now changes.now }
    requires within { place.0 < length net.now.faces }
    ensures { IfOk result (λ row.
        row ≡ face_after net.now.protocol changes.now.edits.items places.now (place.0, face.now)) }
{
    let new = has_new_packet_list(net, changes, place);
    let passive = passive_after(net, changes, place, face.passive);
    let list_in = bound_at(places, new, place, face.list_in);
    let list_out = moved(places, face.list_out);
    Ok(FaceRow {
        router: face.router,
        name: Name::make(alloc, face.name.bytes())?,
        addr: face.addr,
        subnet: face.subnet,
        host: face.host,
        up: face.up,
        enabled: face.enabled,
        told: face.told,
        passive,
        cost: face.cost,
        bound_in: face.bound_in || new,
        list_in,
        list_out,
    })
}

/// The interfaces after the edits.
pub fn faces_after(
    alloc: Global,
    net: &Network,
    changes: &Changes,
    places: &Places,
) -> Result<List<FaceRow>, Memory>
    requires { AreChanges net.now changes.now }
    ensures { IfOk result (λ faces.
        faces ≡ map (face_after net.now.protocol changes.now.edits.items places.now)
        (placed net.now.faces)) }
{
    let mut faces = Vec::new(alloc);
    for (place, face) in net.faces.slice().iter().enumerate() {
        let place = Face(place as u32);
        faces.push(face_after(alloc, net, changes, places, place, face)?)?;
    }
    List::of(faces)
}

fn session_after(
    net: &Network,
    changes: &Changes,
    places: &Places,
    session: &SessionRow,
) -> SessionRow
    requires changes { AreChanges net.now changes.now }
    requires within { session.now.face.0 < length net.now.faces }
    ensures { result ≡ session_after changes.now.edits.items places.now session.now }
{
    let new = has_new_route_list(net, changes, session.face);
    let turned = is_turned(net, changes, session.face);
    SessionRow {
        face: session.face,
        peer: session.peer,
        remote: session.remote,
        down: turned_if(turned, session.down),
        bound: session.bound || new,
        filter: bound_at(places, new, session.face, session.filter),
    }
}

/// The sessions after the edits.
pub fn sessions_after(
    alloc: Global,
    net: &Network,
    changes: &Changes,
    places: &Places,
) -> Result<List<SessionRow>, Memory>
    requires changes { AreChanges net.now changes.now }
    requires within { All (λ session. session.face.0 < length net.now.faces) net.now.sessions }
    ensures { IfOk result (λ sessions.
        sessions ≡ map (session_after changes.now.edits.items places.now) net.now.sessions) }
{
    let mut sessions = Vec::new(alloc);
    for session in net.sessions.slice() {
        sessions.push(session_after(net, changes, places, session))?;
    }
    List::of(sessions)
}

/// The links, which stay.
pub fn same_links(alloc: Global, net: &Network) -> Result<List<LinkRow>, Memory>
    ensures { IfOk result (λ links. links ≡ net.now.links) }
{
    List::of(net.links.slice().to_vec(alloc)?)
}
