//! Routers by their names.
ghost use Rattle.reach_commands.specs.PreferRuns.{IsNamed, NamesNoRouter, FindsRouters};
ghost use Rattle.std.specs.Prelude.{◌↔◌, ◌<◌, length, slice_get, IsTrue, IfSome, IfNone};

use arc_base::{Kind, List, Name, Router};
use net_model::Network;
use run_files::{Stop, refused};
use std::alloc::Global;

/// The router of this name, if there is one.
fn router_named(net: &Network, name: &[u8]) -> Option<Router>
    ensures some { IfSome result (IsNamed net.now name.now) }
    ensures none { IfNone result (NamesNoRouter net.now name.now) }
{
    for place in 0..net.routers.len() {
        if is_named(net, name, place) {
            return Some(Router(place));
        }
    }
    None
}

/// Whether the router at this place has the name.
fn is_named(net: &Network, name: &[u8], place: u32) -> bool
    ensures { IsTrue result ↔ IsNamed net.now name.now (record { 0 = place }) }
{
    match net.routers.get(place) {
        Some(row) => row.name.bytes() == name,
        None => false,
    }
}

/// The routers of these names in order. The first name that no router has is refused, by its place,
/// counted from 1.
pub(crate) fn routers_named(
    alloc: Global,
    document: &Name,
    net: &Network,
    names: &List<Name>,
) -> Result<List<Router>, Stop>
    ensures { FindsRouters document.now net.now names.now result }
{
    let mut wanted = List::make(alloc);
    for place in 0..names.len() {
        match named_at(net, names, place) {
            Some(router) => wanted.push(router)?,
            None => return Err(refused(alloc, document, place + 1, Kind::UnknownRouter)),
        }
    }
    Ok(wanted)
}

/// The router of the name at this place, if there is one.
fn named_at(net: &Network, names: &List<Name>, place: u32) -> Option<Router>
    requires { place < length names.now }
    ensures some { IfSome result (λ router.
        IfSome (slice_get names.now place) (λ name. IsNamed net.now name router)) }
    ensures none { IfNone result (IfSome (slice_get names.now place) (NamesNoRouter net.now)) }
{
    match names.get(place) {
        Some(name) => router_named(net, name.bytes()),
        None => None,
    }
}
