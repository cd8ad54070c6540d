//! What the chosen edits change at each interface and in each list.
ghost use Rattle.arc_base.specs.Numbered.{of_number, IsTableOf};
ghost use Rattle.edit_list.specs.Changes.{session_change, turns_session};
ghost use Rattle.edit_space.specs.Working.{AreChanges};
ghost use Rattle.std.specs.List.{filter_map};
ghost use Rattle.std.specs.Prelude.{◌≡◌, length, IfOk};

use crate::list_kinds::KeyedList;
use arc_base::groups::{Group, grouped, marked};
use arc_base::{List, Memory, Prefix};
use edit_list::Edit;
use net_model::{Class, Network, PacketList, RouteList};
use std::alloc::Global;

/// The edits, and what they change.
#[derive(Debug, Drop)]
pub struct Changes {
    pub edits: Vec<Edit>,
    /// For each interface whether its session is turned.
    pub turned: Vec<bool>,
    /// For each route list the prefixes of its new entries.
    pub route_lists: Vec<Group<Prefix>>,
    /// For each interface the prefixes of the new route list of its session.
    pub new_routes: Vec<Group<Prefix>>,
    /// For each packet list the classes of its new entries.
    pub packet_lists: Vec<Group<Class>>,
    /// For each interface the classes of its new packet list.
    pub new_packets: Vec<Group<Class>>,
}

fn session_change(edit: &Edit) -> Option<u32>
    ensures { result ≡ session_change edit.now }
{
    match edit {
        Edit::Session(face) => Some(face.0),
        _ => None,
    }
}

fn session_changes(alloc: Global, edits: &[Edit]) -> Result<Vec<u32>, Memory>
    ensures { IfOk result (λ changes. changes.items ≡ filter_map session_change edits.now) }
{
    Ok(
        edits
            .iter()
            .filter_map(|e| session_change(e))
            .collect(alloc)?,
    )
}

/// What the edits add to lists that there are, each with the place of its list.
fn list_changes<L: KeyedList>(
    alloc: Global,
    edits: &[Edit],
) -> Result<Vec<(u32, L::Subject)>, Memory>
    ensures { IfOk result (λ changes. changes.items ≡ filter_map L.change edits.now) }
{
    Ok(edits.iter().filter_map(|e| L::change(e)).collect(alloc)?)
}

/// What the edits add to new lists, each with the place of its interface.
fn new_changes<L: KeyedList>(
    alloc: Global,
    edits: &[Edit],
) -> Result<Vec<(u32, L::Subject)>, Memory>
    ensures { IfOk result (λ changes. changes.items ≡ filter_map L.new_change edits.now) }
{
    Ok(
        edits
            .iter()
            .filter_map(|e| L::new_change(e))
            .collect(alloc)?,
    )
}

/// For each interface whether its session is turned.
fn turned_sessions(alloc: Global, net: &Network, edits: &[Edit]) -> Result<Vec<bool>, Memory>
    ensures { IfOk result (λ flags.
        IsTableOf (length net.now.faces) (turns_session edits.now) flags.items) }
{
    let faces = session_changes(alloc, edits)?;
    marked(alloc, net.faces.len(), &faces)
}

/// For each list what its new entries are about.
fn list_entries<L: KeyedList>(
    alloc: Global,
    lists: &List<L>,
    edits: &[Edit],
) -> Result<Vec<Group<L::Subject>>, Memory>
    ensures { IfOk result (λ groups. IsTableOf (length lists.now)
        (λ list. of_number list (filter_map L.change edits.now)) groups.items) }
{
    let changes = list_changes::<L>(alloc, edits)?;
    grouped(alloc, lists.len(), &changes)
}

/// For each interface what the entries of its new list are about.
fn new_entries<L: KeyedList>(
    alloc: Global,
    net: &Network,
    edits: &[Edit],
) -> Result<Vec<Group<L::Subject>>, Memory>
    ensures { IfOk result (λ groups. IsTableOf (length net.now.faces)
        (λ face. of_number face (filter_map L.new_change edits.now)) groups.items) }
{
    let changes = new_changes::<L>(alloc, edits)?;
    grouped(alloc, net.faces.len(), &changes)
}

impl Changes {
    /// What the edits change in the network.
    pub fn of(alloc: Global, net: &Network, edits: Vec<Edit>) -> Result<Changes, Memory>
        ensures edits { IfOk result (λ changes. changes.edits.items ≡ edits.items) }
        ensures are { IfOk result (AreChanges net.now) }
    {
        let turned = turned_sessions(alloc, net, &edits)?;
        let route_lists = list_entries(alloc, &net.route_lists, &edits)?;
        let new_routes = new_entries::<RouteList>(alloc, net, &edits)?;
        let packet_lists = list_entries(alloc, &net.packet_lists, &edits)?;
        let new_packets = new_entries::<PacketList>(alloc, net, &edits)?;
        Ok(Changes {
            edits,
            turned,
            route_lists,
            new_routes,
            packet_lists,
            new_packets,
        })
    }
}
