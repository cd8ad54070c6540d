//! The names of the lists that a router file binds: packet lists at its interfaces, and route lists
//! at its neighbours.
ghost use Rattle.indexmap.specs.IndexMap.{get, IsUnique};
ghost use Rattle.net_rules.specs.Lists.{IsBoundPacketList, IsBoundRouteList};
ghost use Rattle.net_rules.specs.Neighbors.{says_filter, filter_of};
ghost use Rattle.net_rules.specs.Settings.{value};
ghost use Rattle.row_making.specs.ListTables.{Adds};
ghost use Rattle.std.specs.Option.{option_or};
ghost use Rattle.std.specs.Prelude.{◌≡◌, ℕ, OnOk, IfOk, Some, option_map, nat_eq};

use arc_base::{Memory, Name};
use indexmap::IndexMap;
use ios_config::{Config, Given};
use ios_words::Command;
use net_rules::lines_of;
use std::alloc::Global;
use std::collections::BTreeSet;

/// Names in byte order, each once.
pub type Names<'a> = BTreeSet<&'a [u8]>;

fn add_group<'a>(names: &mut Names<'a>, group: &'a Option<Given<Name>>) -> Result<(), Memory>
    ensures { OnOk result
        (Adds (λ name. value group.now ≡ Some name) names.old.keys names.new.keys) }
{
    if let Some(given) = group {
        names.insert(given.value.bytes())?;
    }
    Ok(())
}

/// Adds the names of the packet lists that the interfaces of the file bind.
pub fn add_bound_packet<'a>(names: &mut Names<'a>, config: &'a Config) -> Result<(), Memory>
    ensures { OnOk result (Adds (IsBoundPacketList config.now) names.old.keys names.new.keys) }
{
    for face in config.faces.slice() {
        add_group(names, &face.list_in)?;
        add_group(names, &face.list_out)?;
    }
    Ok(())
}

/// Notes the route list that the command binds, in place of an earlier one.
fn add_filter<'a>(filters: &mut IndexMap<u32, &'a [u8]>, command: &'a Command) -> Result<(), Memory>
    requires { IsUnique nat_eq filters.old }
    ensures unique { OnOk result (IsUnique nat_eq filters.new) }
    ensures filters { OnOk result ((peer : ℕ) →
        option_map (λ n. n.now) (get nat_eq filters.new peer)
        ≡ option_or (says_filter peer command.now)
        (option_map (λ n. n.now) (get nat_eq filters.old peer))) }
{
    if let Command::NeighborList(peer, list) = command {
        filters.insert(*peer, list.bytes())?;
    }
    Ok(())
}

/// The name of the route list that is bound at each neighbour.
fn filters<'a>(
    alloc: Global,
    lines: &'a [Given<Command>],
) -> Result<IndexMap<u32, &'a [u8]>, Memory>
    ensures unique { IfOk result (λ filters. IsUnique nat_eq filters) }
    ensures filters { IfOk result (λ filters. (peer : ℕ) →
        option_map (λ n. n.now) (get nat_eq filters peer) ≡ filter_of lines.now peer) }
{
    let mut filters = IndexMap::new(alloc);
    for line in lines {
        add_filter(&mut filters, &line.value)?;
    }
    Ok(filters)
}

/// Adds the names of the route lists that are bound at the neighbours of the file.
pub fn add_bound_route<'a>(
    alloc: Global,
    names: &mut Names<'a>,
    config: &'a Config,
) -> Result<(), Memory>
    ensures { OnOk result (Adds (IsBoundRouteList config.now) names.old.keys names.new.keys) }
{
    let filters = filters(alloc, lines_of(config))?;
    for list in filters.values() {
        names.insert(*list)?;
    }
    Ok(())
}
