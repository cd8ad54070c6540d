//! The list of all edits.
ghost use Rattle.edit_list.specs.Determined.{IsCountable};
ghost use Rattle.edit_list.specs.EditLists.{has_session, edits_at, link_edits, route_edit};
ghost use Rattle.edit_list.specs.EditLists.{packet_edit, AreEdits, NamesLimit};
ghost use Rattle.edit_list.specs.EditLists.{DocumentHasFewClasses};
ghost use Rattle.edit_list.specs.Listing.{KnowsSessions};
ghost use Rattle.net_model.specs.Forwarding.{HasEnds};
ghost use Rattle.net_model.specs.Packets.{subject};
ghost use Rattle.net_model.specs.Validity.{IsValid};
ghost use Rattle.std.specs.List.{flat_map};
ghost use Rattle.std.specs.Prelude.{◌≡◌, ◌≤◌, ◌<◌, ◌+◌, ◌*◌, ◌++◌, length, map, All, IfOk, IfErr};
ghost use Rattle.std.specs.Prelude.{OnOk};

use crate::countable::count_rows;
use crate::destinations::destinations;
use crate::edit_kinds::{Edit, EditFault};
use crate::sites::{Site, packet_sites, route_sites};
use crate::writable::writable_classes;
use arc_base::groups::{append, marked};
use arc_base::limits::{EDIT_LIMIT, POLICY_LIMIT};
use arc_base::{Face, LimitKind, List, Memory, Prefix};
use net_model::{Class, Document, Network, Protocol};
use std::alloc::Global;
use traffic_classes::all_classes;

/// The interfaces of all sessions.
fn session_faces(alloc: Global, net: &Network) -> Result<Vec<u32>, Memory>
    ensures { IfOk result (λ faces. faces.items ≡ map (λ s. s.face.0) net.now.sessions) }
{
    Ok(
        net.sessions
            .slice()
            .iter()
            .map(|s| s.face.0)
            .collect(alloc)?,
    )
}

/// For each interface whether it has a session under eBGP.
fn faces_with_session(alloc: Global, net: &Network) -> Result<Vec<bool>, Memory>
    ensures { IfOk result (λ flags. KnowsSessions net.now flags.items) }
{
    let faces = session_faces(alloc, net)?;
    marked(alloc, net.faces.len(), &faces)
}

/// Whether the interface runs the protocol with a neighbour.
fn has_session(net: &Network, sessions: &[bool], face: Face) -> bool
    requires { KnowsSessions net.now sessions.now }
    ensures { result ≡ has_session net.now.protocol net.now face }
{
    match net.protocol {
        Protocol::Ospf => match net.faces.get(face.0) {
            Some(row) => row.enabled,
            None => false,
        },
        Protocol::Bgp => match sessions.get(face.0 as usize) {
            Some(flag) => *flag,
            None => net.session_at(face).is_some(),
        },
    }
}

fn add_edit_at(
    list: &mut Vec<Edit>,
    net: &Network,
    sessions: &[bool],
    face: Face,
) -> Result<(), Memory>
    requires { KnowsSessions net.now sessions.now }
    ensures { OnOk result (list.new.items ≡ list.old.items ++ edits_at net.now face) }
{
    if has_session(net, sessions, face) {
        list.push(Edit::Session(face))?;
    }
    Ok(())
}

/// The session edits of all links.
fn session_edits(alloc: Global, net: &Network) -> Result<Vec<Edit>, Memory>
    ensures { IfOk result (λ list. list.items ≡ flat_map (link_edits net.now) net.now.links) }
{
    let sessions = faces_with_session(alloc, net)?;
    let mut list = Vec::new(alloc);
    for link in net.links.slice() {
        add_edit_at(&mut list, net, &sessions, link.a)?;
        add_edit_at(&mut list, net, &sessions, link.b)?;
    }
    Ok(list)
}

fn route_edit(site: Site, prefix: Prefix) -> Edit
    ensures { result ≡ route_edit site prefix }
{
    match site {
        Site::Bound(list) => Edit::RouteList(list, prefix),
        Site::New(face) => Edit::RouteNew(face, prefix),
    }
}

fn packet_edit(site: Site, class: Class) -> Edit
    ensures { result ≡ packet_edit site class }
{
    match site {
        Site::Bound(list) => Edit::PacketList(list, class),
        Site::New(face) => Edit::PacketNew(face, class),
    }
}

fn routes_at(alloc: Global, site: Site, prefixes: &[Prefix]) -> Result<Vec<Edit>, Memory>
    ensures { IfOk result (λ list. list.items ≡ map (route_edit site) prefixes.now) }
{
    Ok(
        prefixes
            .iter()
            .map(|p| route_edit(site, *p))
            .collect(alloc)?,
    )
}

/// Adds the edits of routes at all sites.
fn add_route_edits(
    alloc: Global,
    list: &mut Vec<Edit>,
    sites: &[Site],
    prefixes: &[Prefix],
) -> Result<(), Memory>
    ensures { OnOk result (list.new.items ≡ list.old.items ++
        flat_map (λ site. map (route_edit site) prefixes.now) sites.now) }
{
    for site in sites {
        append(list, &routes_at(alloc, *site, prefixes)?)?;
    }
    Ok(())
}

fn packets_at(alloc: Global, site: Site, classes: &[Class]) -> Result<Vec<Edit>, Memory>
    ensures { IfOk result (λ list. list.items ≡ map (packet_edit site) classes.now) }
{
    Ok(
        classes
            .iter()
            .map(|c| packet_edit(site, *c))
            .collect(alloc)?,
    )
}

/// Adds the edits of packets at all sites.
fn add_packet_edits(
    alloc: Global,
    list: &mut Vec<Edit>,
    sites: &[Site],
    classes: &[Class],
) -> Result<(), Memory>
    ensures { OnOk result (list.new.items ≡ list.old.items ++
        flat_map (λ site. map (packet_edit site) classes.now) sites.now) }
{
    for site in sites {
        append(list, &packets_at(alloc, *site, classes)?)?;
    }
    Ok(())
}

/// The edits of the network for the document, in their order: sessions by link; then entries for
/// the host networks that are destinations of policies, by router, list and neighbour; then entries
/// for those classes of all policies for which one entry can speak, by router, list and interface.
pub fn edits(alloc: Global, net: &Network, doc: &Document) -> Result<List<Edit>, EditFault>
    requires valid { IsValid net.now }
    requires few { length doc.now.policies ≤ POLICY_LIMIT }
    requires ends { All (λ policy. HasEnds net.now (subject policy)) doc.now.policies }
    ensures edits { IfOk result (AreEdits net.now doc.now) }
    ensures few { IfOk result (λ list. length list ≤ EDIT_LIMIT) }
    ensures few_classes { IfOk result (λ list. DocumentHasFewClasses net.now doc.now) }
    ensures limit { IfErr result (NamesLimit net.now doc.now) }
    ensures countable { IfOk result (λ list. IsCountable net.now) }
{
    count_rows(net);
    let classes = all_classes(alloc, net, &doc.policies)?;
    let writable = writable_classes(alloc, classes.slice())?;
    let destinations = destinations(alloc, net, &doc.policies)?;
    let routes = route_sites(alloc, net)?;
    let packets = packet_sites(alloc, net)?;
    let mut list = session_edits(alloc, net)?;
    let count = list.len() as u64
        + routes.len() as u64 * destinations.len() as u64
        + packets.len() as u64 * writable.len() as u64;
    if count > EDIT_LIMIT {
        return Err(EditFault::Limit(LimitKind::Edits, count));
    }
    add_route_edits(alloc, &mut list, &routes, &destinations)?;
    add_packet_edits(alloc, &mut list, &packets, &writable)?;
    Ok(List::of(list)?)
}
