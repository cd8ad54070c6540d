//! The rows of interfaces.
ghost use Rattle.net_rules.specs.Forms.{IsWellFormed, IsWellFormedFace};
ghost use Rattle.net_rules.specs.Lists.{keys_at};
ghost use Rattle.net_rules.specs.Names.{names_at};
ghost use Rattle.net_rules.specs.Rows.{IsSubnet, is_host_route, host_address_of, TellsHost};
ghost use Rattle.net_rules.specs.Rows.{IsFaceRow};
ghost use Rattle.net_rules.specs.Settings.{value, address_of, is_up, bandwidth_of, cost_at};
ghost use Rattle.net_rules.specs.Settings.{IsEnabled, is_point_to_point, lines_of};
ghost use Rattle.net_rules.specs.Sites.{Site, sites_of, sites};
ghost use Rattle.row_making.specs.Indexes.{IsIndex};
ghost use Rattle.std.specs.List.{AllZip};
ghost use Rattle.std.specs.Prelude.{◌≡◌, ◌≤◌, ◌<◌, ◌^◌, ◌++◌, All, List, IfOk, OnOk, IsTrue, ◌↔◌};
ghost use Rattle.std.specs.Prelude.{length, MatchBool, Some, None, option_map, unwrap_or};

use crate::places_of_lists::{ListKey, bound_name, place_of_list};
use crate::process_index::{ProcessIndex, index_process};
use arc_base::limits::ROUTER_LIMIT;
use arc_base::{List, Memory, Name, Prefix, Router};
use indexmap::IndexSet;
use ios_config::{Config, FaceText};
use net_model::{FaceRow, Protocol};
use net_rules::{
    FaceKind, FullName, address_of, contains_name, host_name, is_point_to_point, subnet_of,
};
use std::alloc::Global;

fn is_host_route(protocol: Protocol, face: &FaceText) -> bool
    ensures { result ≡ is_host_route protocol face.now }
{
    match protocol {
        Protocol::Ospf => {
            FaceKind::of(face.name.bytes()).is_loopback() && !is_point_to_point(&face.point, false)
        }
        Protocol::Bgp => false,
    }
}

fn host_address_of(protocol: Protocol, face: &FaceText) -> Option<(u32, u8)>
    ensures { result ≡ host_address_of protocol face.now }
{
    let (address, len) = address_of(face)?;
    if is_host_route(protocol, face) {
        return Some((address, 32));
    }
    Some((address, len))
}

/// The host network of the interface, if it is no link's end.
fn host_of(protocol: Protocol, face: &FaceText, is_end: bool) -> Option<Prefix>
    requires { IsWellFormedFace face.now }
    ensures { MatchBool is_end (result ≡ None)
        (IsSubnet (host_address_of protocol face.now) result) }
{
    if is_end {
        return None;
    }
    subnet_of(host_address_of(protocol, face))
}

fn is_up(face: &FaceText) -> bool
    ensures { result ≡ is_up face.now }
{
    match &face.shut {
        Some(given) => !given.value,
        None => true,
    }
}

fn bandwidth_of(face: &FaceText) -> u32
    ensures { result ≡ bandwidth_of face.now }
{
    match &face.bandwidth {
        Some(given) => given.value,
        None => FaceKind::of(face.name.bytes()).default_bandwidth(),
    }
}

/// The OSPF cost at this bandwidth and this reference, both in kbit/s.
fn cost_at(reference: u64, bandwidth: u32) -> u32
    requires { 1 ≤ bandwidth }
    ensures { result ≡ cost_at reference bandwidth }
{
    (reference / u64::from(bandwidth)).clamp(1, 65_535) as u32
}

fn cost_of(reference: u64, face: &FaceText) -> u32
    requires { IsWellFormedFace face.now }
    ensures { result ≡ unwrap_or (value face.now.cost) (cost_at reference (bandwidth_of face.now)) }
{
    match &face.cost {
        Some(given) => given.value,
        None => cost_at(reference, bandwidth_of(face)),
    }
}

fn is_enabled(index: &ProcessIndex<'_>, face: &FaceText) -> bool
    requires { IsIndex index.now }
    ensures { IsTrue result ↔ IsEnabled (lines_of index.now.config.now) face.now }
{
    if face.area.is_some() {
        return true;
    }
    match address_of(face) {
        Some((address, _)) => index.is_covered(address),
        None => false,
    }
}

/// Whether the router advertises the host network to its neighbours.
fn tells(protocol: Protocol, index: &ProcessIndex<'_>, host: &Option<Prefix>, enabled: bool) -> bool
    requires { IsIndex index.now }
    ensures { IsTrue result ↔ TellsHost protocol (lines_of index.now.config.now) host.now enabled }
{
    match host {
        None => false,
        Some(p) => match protocol {
            Protocol::Ospf => enabled,
            Protocol::Bgp => index.is_told(p),
        },
    }
}

/// What the row of an interface is made from, apart from its file.
#[derive(Clone, Copy)]
pub struct Surroundings<'a> {
    pub protocol: Protocol,
    /// The ends of the document's links.
    pub ends: &'a IndexSet<FullName<'a>>,
    /// The packet lists, each at its place.
    pub lists: &'a IndexSet<ListKey<'a>>,
}

/// The row of an interface of the router at this place.
fn face_row(
    alloc: Global,
    around: &Surroundings<'_>,
    router: u32,
    index: &ProcessIndex<'_>,
    face: &FaceText,
) -> Result<FaceRow, Memory>
    requires index { IsIndex index.now }
    requires well_formed { IsWellFormedFace face.now }
    requires few { length around.now.lists.now.keys < 2 ^ 32 }
    ensures { IfOk result (IsFaceRow around.now.protocol (names_at around.now.ends.now.keys)
        (keys_at around.now.lists.now.keys)
        (record { router = router; config = index.now.config.now; face = face.now })) }
{
    let is_end = contains_name(around.ends, host_name(index.config), face.name.bytes());
    let address = address_of(face);
    let host = host_of(around.protocol, face, is_end);
    let enabled = is_enabled(index, face);
    Ok(FaceRow {
        router: Router(router),
        name: Name::make(alloc, face.name.bytes())?,
        addr: first_of(address),
        subnet: subnet_of(address),
        host,
        up: is_up(face),
        enabled,
        told: tells(around.protocol, index, &host, enabled),
        passive: index.is_passive(around.protocol, face.name.bytes()),
        cost: cost_of(index.reference, face),
        bound_in: face.list_in.is_some(),
        list_in: place_of_list(around.lists, router, bound_name(&face.list_in)),
        list_out: place_of_list(around.lists, router, bound_name(&face.list_out)),
    })
}

fn first_of(address: Option<(u32, u8)>) -> Option<u32>
    ensures { result ≡ option_map (λ a. a.0) address }
{
    match address {
        Some((address, _)) => Some(address),
        None => None,
    }
}

/// Adds the rows of a file's interfaces.
fn add_face_rows(
    alloc: Global,
    rows: &mut Vec<FaceRow>,
    around: &Surroundings<'_>,
    router: u32,
    config: &Config,
) -> Result<(), Memory>
    requires well_formed { IsWellFormed config.now }
    requires few { length around.now.lists.now.keys < 2 ^ 32 }
    ensures { OnOk result ((before : List Site) →
        AllZip (IsFaceRow around.now.protocol (names_at around.now.ends.now.keys)
        (keys_at around.now.lists.now.keys)) before rows.old.items →
        AllZip (IsFaceRow around.now.protocol (names_at around.now.ends.now.keys)
        (keys_at around.now.lists.now.keys))
        (before ++ sites_of (router, config.now)) rows.new.items) }
{
    let index = index_process(alloc, config)?;
    for face in config.faces.slice() {
        rows.push(face_row(alloc, around, router, &index, face)?)?;
    }
    Ok(())
}

/// The rows of all interfaces.
pub fn face_rows(
    alloc: Global,
    around: &Surroundings<'_>,
    configs: &List<Config>,
) -> Result<List<FaceRow>, Memory>
    requires well_formed { All IsWellFormed configs.now }
    requires few { length around.now.lists.now.keys < 2 ^ 32 }
    requires routers { length configs.now ≤ ROUTER_LIMIT }
    ensures { IfOk result (AllZip (IsFaceRow around.now.protocol (names_at around.now.ends.now.keys)
        (keys_at around.now.lists.now.keys)) (sites configs.now)) }
{
    let mut rows = Vec::new(alloc);
    for (router, config) in configs.slice().iter().enumerate() {
        add_face_rows(alloc, &mut rows, around, router as u32, config)?;
    }
    List::of(rows)
}
