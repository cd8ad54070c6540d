//! Entries that edits make.
ghost use Rattle.edit_list.specs.After.{any, exact_entry, class_entry, opposite_route_entry};
ghost use Rattle.edit_list.specs.After.{opposite_packet_entry, with_prefixes, with_classes};
ghost use Rattle.edit_list.specs.After.{new_route_entries, new_packet_entries};
ghost use Rattle.std.specs.Prelude.{◌≡◌, false, map, IfOk};

use arc_base::groups::append;
use arc_base::{List, Memory, Prefix};
use net_model::{Class, PacketEntry, PacketList, RouteEntry, RouteList, Service};
use std::alloc::Global;

/// The prefix of all addresses.
#[tactic(auto, using(arc_base::proofs::SamePrefix::same_prefix))]
pub fn any() -> Prefix
    ensures { result ≡ any }
{
    Prefix { addr: 0, len: 0 }
}

fn exact_entry(permit: bool, prefix: Prefix) -> RouteEntry
    ensures { result ≡ exact_entry permit prefix }
{
    RouteEntry {
        permit,
        prefix,
        low: prefix.len,
        high: prefix.len,
    }
}

fn class_entry(permit: bool, class: Class) -> PacketEntry
    ensures { result ≡ class_entry permit class }
{
    PacketEntry {
        permit,
        from: class.from,
        to: class.to,
        service: class.service,
    }
}

/// The entry for exactly this prefix with the answer that the list does not give.
pub fn opposite_route_entry(list: &RouteList, prefix: Prefix) -> RouteEntry
    ensures { result ≡ opposite_route_entry list.now.entries prefix }
{
    exact_entry(!list.permits(prefix), prefix)
}

/// The entry for the class with the answer that the list does not give.
pub fn opposite_packet_entry(list: &PacketList, class: Class) -> PacketEntry
    ensures { result ≡ opposite_packet_entry list.now.entries class }
{
    class_entry(!list.permits(class.first_packet()), class)
}

fn opposite_route_entries(
    alloc: Global,
    list: &RouteList,
    prefixes: &[Prefix],
) -> Result<Vec<RouteEntry>, Memory>
    ensures { IfOk result (λ entries.
        entries.items ≡ map (opposite_route_entry list.now.entries) prefixes.now) }
{
    Ok(
        prefixes
            .iter()
            .map(|p| opposite_route_entry(list, *p))
            .collect(alloc)?,
    )
}

fn opposite_packet_entries(
    alloc: Global,
    list: &PacketList,
    classes: &[Class],
) -> Result<Vec<PacketEntry>, Memory>
    ensures { IfOk result (λ entries.
        entries.items ≡ map (opposite_packet_entry list.now.entries) classes.now) }
{
    Ok(
        classes
            .iter()
            .map(|c| opposite_packet_entry(list, *c))
            .collect(alloc)?,
    )
}

fn denied_prefixes(alloc: Global, prefixes: &[Prefix]) -> Result<Vec<RouteEntry>, Memory>
    ensures { IfOk result (λ entries. entries.items ≡ map (exact_entry false) prefixes.now) }
{
    Ok(
        prefixes
            .iter()
            .map(|p| exact_entry(false, *p))
            .collect(alloc)?,
    )
}

fn denied_classes(alloc: Global, classes: &[Class]) -> Result<Vec<PacketEntry>, Memory>
    ensures { IfOk result (λ entries. entries.items ≡ map (class_entry false) classes.now) }
{
    Ok(
        classes
            .iter()
            .map(|c| class_entry(false, *c))
            .collect(alloc)?,
    )
}

/// The entries of a route list, with entries for these prefixes at its front that turn its answers.
pub fn with_prefixes(
    alloc: Global,
    list: &RouteList,
    prefixes: &[Prefix],
) -> Result<List<RouteEntry>, Memory>
    ensures { IfOk result (λ entries. entries ≡ with_prefixes list.now.entries prefixes.now) }
{
    let mut entries = opposite_route_entries(alloc, list, prefixes)?;
    append(&mut entries, list.entries.slice())?;
    List::of(entries)
}

/// The entries of a packet list, with entries for these classes at its front that turn its answers.
pub fn with_classes(
    alloc: Global,
    list: &PacketList,
    classes: &[Class],
) -> Result<List<PacketEntry>, Memory>
    ensures { IfOk result (λ entries. entries ≡ with_classes list.now.entries classes.now) }
{
    let mut entries = opposite_packet_entries(alloc, list, classes)?;
    append(&mut entries, list.entries.slice())?;
    List::of(entries)
}

/// The entries of a new route list, which denies these prefixes and permits all others.
pub fn new_route_entries(alloc: Global, prefixes: &[Prefix]) -> Result<List<RouteEntry>, Memory>
    ensures { IfOk result (λ entries. entries ≡ new_route_entries prefixes.now) }
{
    let mut entries = denied_prefixes(alloc, prefixes)?;
    let others = RouteEntry {
        permit: true,
        prefix: any(),
        low: 0,
        high: 32,
    };
    entries.push(others)?;
    List::of(entries)
}

/// The entries of a new packet list, which denies these classes and permits all other packets.
pub fn new_packet_entries(alloc: Global, classes: &[Class]) -> Result<List<PacketEntry>, Memory>
    ensures { IfOk result (λ entries. entries ≡ new_packet_entries classes.now) }
{
    let mut entries = denied_classes(alloc, classes)?;
    let others = PacketEntry {
        permit: true,
        from: any(),
        to: any(),
        service: Service::whole(),
    };
    entries.push(others)?;
    List::of(entries)
}
