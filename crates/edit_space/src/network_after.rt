//! The network after edits.
ghost use Rattle.edit_list.specs.After.{IsAfter};
ghost use Rattle.edit_list.specs.Prices.{chosen_of};
ghost use Rattle.edit_space.specs.Working.{AreChanges, AreMade};
ghost use Rattle.net_model.specs.Validity.{IsValid};
ghost use Rattle.std.specs.Prelude.{◌≡◌, length, IfOk};

use crate::changes::Changes;
use crate::list_kinds::{keyed_lists, lists_after};
use crate::new_lists::{Named, new_named};
use crate::order::placed_lists;
use crate::rows::{faces_after, routers_after, same_links, sessions_after};
use arc_base::{List, Memory, Name};
use edit_list::{Edit, chosen_edits};
use net_model::Network;
use std::alloc::Global;

/// The network after these changes, with its new lists and their names.
fn changed(
    alloc: Global,
    net: &Network,
    changes: &Changes,
    names: &[List<Name>],
    named: &[Named],
) -> Result<Network, Memory>
    requires valid { IsValid net.now }
    requires changes { AreChanges net.now changes.now }
    requires made { AreMade net.now changes.now.edits.items names.now named.now }
    ensures after { IfOk result (IsAfter net.now changes.now.edits.items) }
    ensures valid { IfOk result IsValid }
{
    let faces = net.faces.len();
    let packets = keyed_lists(alloc, &net.packet_lists, named)?;
    let (packets, packet_places) = placed_lists(alloc, net.packet_lists.len(), faces, packets)?;
    let routes = keyed_lists(alloc, &net.route_lists, named)?;
    let (routes, route_places) = placed_lists(alloc, net.route_lists.len(), faces, routes)?;
    Ok(Network {
        protocol: net.protocol,
        routers: routers_after(alloc, net, changes, names)?,
        faces: faces_after(alloc, net, changes, &packet_places)?,
        sessions: sessions_after(alloc, net, changes, &route_places)?,
        links: same_links(alloc, net)?,
        packet_lists: lists_after(alloc, net, changes, packets.slice())?,
        route_lists: lists_after(alloc, net, changes, routes.slice())?,
    })
}

/// The network after the chosen edits.
pub fn after(
    alloc: Global,
    net: &Network,
    edits: &List<Edit>,
    chosen: &[bool],
) -> Result<Network, Memory>
    requires valid { IsValid net.now }
    requires flags { length chosen.now ≡ length edits.now }
    ensures after { IfOk result (IsAfter net.now (chosen_of edits.now chosen.now)) }
    ensures valid { IfOk result IsValid }
{
    let changes = Changes::of(alloc, net, chosen_edits(alloc, edits.slice(), chosen)?)?;
    let (names, named) = new_named(alloc, net, &changes)?;
    changed(alloc, net, &changes, &names, &named)
}
