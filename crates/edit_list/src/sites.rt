//! Where entries can be added.
ghost use Rattle.arc_base.specs.Numbered.{placed};
ghost use Rattle.edit_list.specs.Sites.{route_list_site, neighbor_site, packet_list_site};
ghost use Rattle.edit_list.specs.Sites.{face_site, route_sites, packet_sites};
ghost use Rattle.std.specs.List.{filter_map};
ghost use Rattle.std.specs.Prelude.{◌≡◌, ◌<◌, ◌^◌, length, map, IfOk};

use arc_base::groups::{append, by_number};
use arc_base::{Face, ListId, Memory};
use net_model::{FaceRow, Network, PacketList, RouteList, SessionRow};
use std::alloc::Global;

/// Where an entry can be added: in an existing list, or in a new one at an interface or at its
/// neighbour.
#[derive(Clone, Copy, Debug, PartialEq, Eq)]
pub enum Site {
    Bound(ListId),
    New(Face),
}

/// Sites, each with the place of its router.
type RouterSites = Vec<(u32, Site)>;

fn route_list_site(place: u32, list: &RouteList) -> (u32, Site)
    ensures { result ≡ route_list_site (place, list.now) }
{
    (list.router.0, Site::Bound(ListId(place)))
}

fn packet_list_site(place: u32, list: &PacketList) -> Option<(u32, Site)>
    ensures { result ≡ packet_list_site (place, list.now) }
{
    if list.extended {
        Some((list.router.0, Site::Bound(ListId(place))))
    } else {
        None
    }
}

fn neighbor_site(net: &Network, session: &SessionRow) -> Option<(u32, Site)>
    ensures { result ≡ neighbor_site net.now session.now }
{
    if session.bound {
        return None;
    }
    match net.faces.get(session.face.0) {
        Some(face) => Some((face.router.0, Site::New(session.face))),
        None => None,
    }
}

fn face_site(place: u32, face: &FaceRow) -> Option<(u32, Site)>
    ensures { result ≡ face_site (place, face.now) }
{
    if face.up && face.addr.is_some() && !face.bound_in {
        Some((face.router.0, Site::New(Face(place))))
    } else {
        None
    }
}

fn route_list_sites(alloc: Global, lists: &[RouteList]) -> Result<RouterSites, Memory>
    requires { length lists.now < 2 ^ 32 }
    ensures { IfOk result (λ sites. sites.items ≡ map route_list_site (placed lists.now)) }
{
    Ok(
        (0..lists.len() as u32)
            .zip(lists)
            .map(|(k, l)| route_list_site(k, l))
            .collect(alloc)?,
    )
}

fn neighbor_sites(
    alloc: Global,
    net: &Network,
    sessions: &[SessionRow],
) -> Result<RouterSites, Memory>
    ensures { IfOk result (λ sites. sites.items ≡ filter_map (neighbor_site net.now) sessions.now) }
{
    Ok(
        sessions
            .iter()
            .filter_map(|s| neighbor_site(net, s))
            .collect(alloc)?,
    )
}

fn packet_list_sites(alloc: Global, lists: &[PacketList]) -> Result<RouterSites, Memory>
    requires { length lists.now < 2 ^ 32 }
    ensures { IfOk result (λ sites. sites.items ≡ filter_map packet_list_site (placed lists.now)) }
{
    Ok(
        (0..lists.len() as u32)
            .zip(lists)
            .filter_map(|(k, l)| packet_list_site(k, l))
            .collect(alloc)?,
    )
}

fn face_sites(alloc: Global, faces: &[FaceRow]) -> Result<RouterSites, Memory>
    requires { length faces.now < 2 ^ 32 }
    ensures { IfOk result (λ sites. sites.items ≡ filter_map face_site (placed faces.now)) }
{
    Ok(
        (0..faces.len() as u32)
            .zip(faces)
            .filter_map(|(k, f)| face_site(k, f))
            .collect(alloc)?,
    )
}

/// The sites of routes: for each router its route lists, and then its neighbours at which none is
/// bound.
pub fn route_sites(alloc: Global, net: &Network) -> Result<Vec<Site>, Memory>
    ensures sites { IfOk result (λ sites. sites.items ≡ route_sites net.now) }
    ensures few { IfOk result (λ sites. length sites.items < 2 ^ 33) }
{
    let mut sites = route_list_sites(alloc, net.route_lists.slice())?;
    let neighbors = neighbor_sites(alloc, net, net.sessions.slice())?;
    append(&mut sites, &neighbors)?;
    by_number(alloc, net.routers.len(), &sites)
}

/// The sites of packets: for each router its extended packet lists, and then its interfaces at
/// which one can be bound.
pub fn packet_sites(alloc: Global, net: &Network) -> Result<Vec<Site>, Memory>
    ensures sites { IfOk result (λ sites. sites.items ≡ packet_sites net.now) }
    ensures few { IfOk result (λ sites. length sites.items < 2 ^ 33) }
{
    let mut sites = packet_list_sites(alloc, net.packet_lists.slice())?;
    let faces = face_sites(alloc, net.faces.slice())?;
    append(&mut sites, &faces)?;
    by_number(alloc, net.routers.len(), &sites)
}
