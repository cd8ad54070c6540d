//! The lists of router files: their names, and the rows of those that are bound and defined.
ghost use Rattle.arc_base.specs.NameForms.{IsNameBefore, texts_at};
ghost use Rattle.net_rules.specs.Lists.{is_extended_kind, IsBoundPacketList, IsBoundRouteList};
ghost use Rattle.net_rules.specs.Lists.{ArePacketLists, is_packet_kind, packet_entries, is_of_kind};
ghost use Rattle.net_rules.specs.Lists.{AreListNames, AreRouteLists, route_entries, packet_row_at};
ghost use Rattle.net_rules.specs.Lists.{packet_entry, route_entry, list_named, route_row_at};
ghost use Rattle.net_rules.specs.Lists.{entry_of, if_defined, packet_row, route_row};
ghost use Rattle.row_making.specs.ListTables.{Adds, list_at, list_if, AddsRows};
ghost use Rattle.std.specs.Option.{option_copied, option_or};
ghost use Rattle.std.specs.Prelude.{◌≡◌, ◌≤◌, ℕ, List, Any, IfOk, OnOk, length, AllPairs};

use crate::bound_lists::{Names, add_bound_packet, add_bound_route};
use arc_base::limits::ROUTER_LIMIT;
use arc_base::{List, Memory, Name, Router};
use ios_config::{Config, Given, ListKind, ListText};
use ios_words::{Command, PacketText};
use net_model::{PacketEntry, PacketList, RouteEntry, RouteList, Service};
use std::alloc::Global;
use std::collections::{BTreeMap, BTreeSet};

/// Lists by their names.
type ByName<'a> = BTreeMap<&'a [u8], &'a ListText>;

fn add_defined<'a>(names: &mut Names<'a>, config: &'a Config) -> Result<(), Memory>
    ensures { OnOk result
        (Adds (λ name. Any (λ l. l.name ≡ name) config.now.lists) names.old.keys names.new.keys) }
{
    for list in config.lists.slice() {
        names.insert(list.name.bytes())?;
    }
    Ok(())
}

/// The names, in their order.
fn listed(alloc: Global, names: &Names<'_>) -> Result<Vec<Name>, Memory>
    ensures names { IfOk result (λ listed. listed.items ≡ texts_at names.now.keys) }
    ensures order { IfOk result (λ listed. AllPairs IsNameBefore listed.items) }
{
    let mut listed = Vec::new(alloc);
    for name in names {
        listed.push(Name::make(alloc, name)?)?;
    }
    Ok(listed)
}

/// The names that the file gives a list or binds.
pub fn list_names(alloc: Global, config: &Config) -> Result<List<Name>, Memory>
    ensures { IfOk result (AreListNames config.now) }
{
    let mut names = BTreeSet::new(alloc);
    add_defined(&mut names, config)?;
    add_bound_packet(&mut names, config)?;
    add_bound_route(alloc, &mut names, config)?;
    List::of(listed(alloc, &names)?)
}

fn is_packet_kind(kind: ListKind) -> bool
    ensures { result ≡ is_packet_kind kind }
{
    matches!(kind, ListKind::Extended | ListKind::Standard)
}

fn is_extended_kind(kind: ListKind) -> bool
    ensures { result ≡ is_extended_kind kind }
{
    matches!(kind, ListKind::Extended)
}

/// Whether the list is a packet list, or whether it is a route list.
fn is_of_kind(packet: bool, list: &ListText) -> bool
    ensures { result ≡ is_of_kind packet list.now }
{
    if packet {
        is_packet_kind(list.kind)
    } else {
        !is_packet_kind(list.kind)
    }
}

/// Adds the list if it is of the kind and no list of its name is there.
fn add_list<'a>(lists: &mut ByName<'a>, packet: bool, list: &'a ListText) -> Result<(), Memory>
    ensures { OnOk result ((name : List ℕ) → list_at lists.new name
        ≡ option_or (list_at lists.old name) (list_if packet list.now name)) }
{
    if !is_of_kind(packet, list) {
        return Ok(());
    }
    if lists.contains_key(&list.name.bytes()) {
        return Ok(());
    }
    lists.insert(list.name.bytes(), list)?;
    Ok(())
}

/// The packet lists of the file or its route lists by name: of each name the first.
fn by_name<'a>(alloc: Global, config: &'a Config, packet: bool) -> Result<ByName<'a>, Memory>
    ensures { IfOk result (λ lists. (name : List ℕ) →
        list_at lists name ≡ list_named packet config.now name) }
{
    let mut lists = BTreeMap::new(alloc);
    for list in config.lists.slice() {
        add_list(&mut lists, packet, list)?;
    }
    Ok(lists)
}

/// The list that was found, if it has an entry.
fn defined(found: Option<&ListText>) -> Option<&ListText>
    ensures { option_copied result ≡ if_defined (option_copied found.entry) }
{
    let list = found?;
    if list.entries.is_empty() {
        return None;
    }
    Some(list)
}

/// The entry that the words of a line give.
fn entry_of(text: &PacketText) -> PacketEntry
    ensures { result ≡ entry_of text.now }
{
    PacketEntry {
        permit: text.permit,
        from: text.from,
        to: text.to,
        service: Service {
            low: text.low,
            high: text.high,
        },
    }
}

fn packet_entry(command: &Command) -> Option<PacketEntry>
    ensures { result ≡ packet_entry command.now }
{
    match command {
        Command::Entry(_, text) | Command::ListLine(_, text) => Some(entry_of(text)),
        _ => None,
    }
}

fn packet_entries(alloc: Global, list: &ListText) -> Result<List<PacketEntry>, Memory>
    ensures { IfOk result (λ entries. entries ≡ packet_entries list.now) }
{
    let lines = list.entries.slice().iter();
    List::of(lines.filter_map(|g| packet_entry(&g.value)).collect(alloc)?)
}

fn route_entry(command: &Command) -> Option<RouteEntry>
    ensures { result ≡ route_entry command.now }
{
    match command {
        Command::PrefixLine(_, _, text) => Some(RouteEntry {
            permit: text.permit,
            prefix: text.prefix,
            low: text.low,
            high: text.high,
        }),
        _ => None,
    }
}

fn route_entries(alloc: Global, list: &ListText) -> Result<List<RouteEntry>, Memory>
    ensures { IfOk result (λ entries. entries ≡ route_entries list.now) }
{
    let lines = list.entries.slice().iter();
    List::of(lines.filter_map(|g| route_entry(&g.value)).collect(alloc)?)
}

fn packet_row(
    alloc: Global,
    router: u32,
    name: &[u8],
    list: &ListText,
) -> Result<PacketList, Memory>
    ensures { IfOk result (λ row. row ≡ packet_row router name.now list.now) }
{
    Ok(PacketList {
        router: Router(router),
        name: Name::make(alloc, name)?,
        extended: is_extended_kind(list.kind),
        entries: packet_entries(alloc, list)?,
    })
}

fn route_row(alloc: Global, router: u32, name: &[u8], list: &ListText) -> Result<RouteList, Memory>
    ensures { IfOk result (λ row. row ≡ route_row router name.now list.now) }
{
    Ok(RouteList {
        router: Router(router),
        name: Name::make(alloc, name)?,
        entries: route_entries(alloc, list)?,
    })
}

/// Adds the rows of the packet lists that the file binds and defines. Where it binds none no list
/// is looked at.
fn add_packet_lists(
    alloc: Global,
    rows: &mut Vec<PacketList>,
    router: u32,
    config: &Config,
) -> Result<(), Memory>
    ensures { OnOk result (AddsRows (IsBoundPacketList config.now)
        (packet_row_at router config.now) rows.old.items rows.new.items) }
{
    let mut bound = BTreeSet::new(alloc);
    add_bound_packet(&mut bound, config)?;
    if bound.is_empty() {
        return Ok(());
    }
    let lists = by_name(alloc, config, true)?;
    for name in &bound {
        let found = lists.get(name).copied();
        if let Some(list) = defined(found) {
            rows.push(packet_row(alloc, router, name, list)?)?;
        }
    }
    Ok(())
}

/// Adds the rows of the route lists that the file binds and defines. Where it binds none no list is
/// looked at.
fn add_route_lists(
    alloc: Global,
    rows: &mut Vec<RouteList>,
    router: u32,
    config: &Config,
) -> Result<(), Memory>
    ensures { OnOk result (AddsRows (IsBoundRouteList config.now)
        (route_row_at router config.now) rows.old.items rows.new.items) }
{
    let mut bound = BTreeSet::new(alloc);
    add_bound_route(alloc, &mut bound, config)?;
    if bound.is_empty() {
        return Ok(());
    }
    let lists = by_name(alloc, config, false)?;
    for name in &bound {
        let found = lists.get(name).copied();
        if let Some(list) = defined(found) {
            rows.push(route_row(alloc, router, name, list)?)?;
        }
    }
    Ok(())
}

/// The rows of the packet lists of all files.
pub fn packet_lists(alloc: Global, configs: &List<Config>) -> Result<List<PacketList>, Memory>
    requires { length configs.now ≤ ROUTER_LIMIT }
    ensures { IfOk result (ArePacketLists configs.now) }
{
    let mut rows = Vec::new(alloc);
    for (router, config) in configs.slice().iter().enumerate() {
        add_packet_lists(alloc, &mut rows, router as u32, config)?;
    }
    List::of(rows)
}

/// The rows of the route lists of all files.
pub fn route_lists(alloc: Global, configs: &List<Config>) -> Result<List<RouteList>, Memory>
    requires { length configs.now ≤ ROUTER_LIMIT }
    ensures { IfOk result (AreRouteLists configs.now) }
{
    let mut rows = Vec::new(alloc);
    for (router, config) in configs.slice().iter().enumerate() {
        add_route_lists(alloc, &mut rows, router as u32, config)?;
    }
    List::of(rows)
}
