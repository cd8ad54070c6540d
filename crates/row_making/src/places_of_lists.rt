//! Where the lists of a router are among the rows of the network.
ghost use Rattle.arc_base.specs.Lists.{AreDistinct};
ghost use Rattle.net_rules.specs.Lists.{IsPlaceAmong, keys_at, packet_list_key, route_list_key};
ghost use Rattle.std.specs.Option.{option_copied};
ghost use Rattle.std.specs.Prelude.{◌≡◌, ◌<◌, ◌^◌, map, option_map, length, IfOk};

use arc_base::{List, ListId, Memory, Name};
use indexmap::IndexSet;
use ios_config::Given;
use net_model::{PacketList, RouteList};
use std::alloc::Global;

/// The router and the name by which a list is found.
pub type ListKey<'a> = (u32, &'a [u8]);

/// An index of the packet lists, each at its place.
pub fn index_packet_lists<'a>(
    alloc: Global,
    lists: &'a List<PacketList>,
) -> Result<IndexSet<ListKey<'a>>, Memory>
    requires { AreDistinct (map packet_list_key lists.now) }
    ensures keys { IfOk result (λ index. keys_at index.keys ≡ map packet_list_key lists.now) }
    ensures few { IfOk result (λ index. length index.keys < 2 ^ 32) }
{
    let mut index = IndexSet::new(alloc);
    for list in lists.slice() {
        index.insert_full((list.router.0, list.name.bytes()))?;
    }
    Ok(index)
}

/// An index of the route lists, each at its place.
pub fn index_route_lists<'a>(
    alloc: Global,
    lists: &'a List<RouteList>,
) -> Result<IndexSet<ListKey<'a>>, Memory>
    requires { AreDistinct (map route_list_key lists.now) }
    ensures keys { IfOk result (λ index. keys_at index.keys ≡ map route_list_key lists.now) }
    ensures few { IfOk result (λ index. length index.keys < 2 ^ 32) }
{
    let mut index = IndexSet::new(alloc);
    for list in lists.slice() {
        index.insert_full((list.router.0, list.name.bytes()))?;
    }
    Ok(index)
}

/// Where the list is that the router binds under a name: nowhere, if it binds none or it is not
/// defined.
pub fn place_of_list(
    index: &IndexSet<ListKey<'_>>,
    router: u32,
    bound: Option<&Name>,
) -> Option<ListId>
    requires { length index.now.keys < 2 ^ 32 }
    ensures { IsPlaceAmong (keys_at index.now.keys) router (option_copied bound.entry) result }
{
    let name = bound?;
    let place = index.get_index_of(&(router, name.bytes()))?;
    Some(ListId(place as u32))
}

/// The name that a line binds.
pub fn bound_name(given: &Option<Given<Name>>) -> Option<&Name>
    ensures { option_copied result ≡ option_map (λ g. g.value) given.now }
{
    Some(&given.as_ref()?.value)
}
