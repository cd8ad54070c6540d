//! What two routers must have alike or different to become neighbours: network types and router
//! ids.
ghost use Rattle.arc_base.specs.Lists.{AreDistinct};
ghost use Rattle.net_rules.specs.Settings.{is_point_to_point};
ghost use Rattle.net_rules.specs.Sites.{full_names, sites};
ghost use Rattle.std.specs.Prelude.{◌≡◌, ◌≤◌, ◌↔◌, length, IsTrue, option_map, slice_get};
ghost use Rattle.arc_base.specs.declared.refusal.Kind.TheVariants as kinds;
ghost use Rattle.net_model.specs.declared.policies.Document.{Document};
ghost use Rattle.net_rules.specs.Linking.{RefusesAdjacencyForm, TypesDiffer};
ghost use Rattle.net_rules.specs.Linking.{router_id_line, router_id_of};
ghost use Rattle.net_rules.specs.Reasons.{TriedAlone, InFiles, InDocument};
ghost use Rattle.net_rules.specs.Routers.{Repeats};
ghost use Rattle.net_rules.specs.Rows.{AreRows};

use crate::routers::add_given;
use arc_base::limits::{LINK_LIMIT, ROUTER_LIMIT};
use arc_base::{Face, Kind, List};
use indexmap::IndexSet;
use ios_config::{Config, Given};
use ios_words::Command;
use net_doc::NetFault;
use net_model::{LinkRow, Network};
use net_rules::{has_point_type, in_document, in_file, lines_of, spot_at};
use std::alloc::Global;

/// The OSPF network type of the interface at a place.
fn type_at(configs: &List<Config>, face: Face) -> Option<bool>
    ensures { result
        ≡ option_map (λ site. is_point_to_point site.face) (slice_get (sites configs.now) face.0) }
{
    Some(has_point_type(spot_at(configs, face.0)?.face))
}

fn types_differ(configs: &List<Config>, link: &LinkRow) -> bool
    ensures { IsTrue result ↔ TypesDiffer configs.now link.now }
{
    let Some(a) = type_at(configs, link.a) else {
        return false;
    };
    let Some(b) = type_at(configs, link.b) else {
        return false;
    };
    a != b
}

/// The router id that a line sets, with the line.
fn router_id_line(line: &Given<Command>) -> Option<Given<u32>>
    ensures { result ≡ router_id_line line.now }
{
    match &line.value {
        Command::RouterId(id) => Some(Given {
            value: *id,
            line: line.line,
        }),
        _ => None,
    }
}

/// The router id of the file's process, with the last line that sets it.
fn router_id_of(config: &Config) -> Option<Given<u32>>
    ensures { result ≡ router_id_of config.now }
{
    let mut last = None;
    for line in lines_of(config) {
        last = router_id_line(line).or(last);
    }
    last
}

fn try_types(net: &Network, configs: &List<Config>) -> Result<(), NetFault>
    requires { length net.now.links ≤ LINK_LIMIT }
    ensures { TriedAlone
        (InDocument kinds.AdjacencyForm (λ place link. TypesDiffer configs.now link) net.now.links)
        result }
{
    for (place, link) in net.links.slice().iter().enumerate() {
        if types_differ(configs, link) {
            return Err(in_document(place, Kind::AdjacencyForm));
        }
    }
    Ok(())
}

fn try_router_ids(alloc: Global, configs: &List<Config>) -> Result<(), NetFault>
    requires { length configs.now ≤ ROUTER_LIMIT }
    ensures { TriedAlone
        (InFiles kinds.AdjacencyForm (Repeats router_id_of configs.now) configs.now) result }
{
    let mut ids = IndexSet::new(alloc);
    for (place, config) in configs.slice().iter().enumerate() {
        if let Some(line) = add_given(&mut ids, router_id_of(config))? {
            return Err(in_file(place, line, Kind::AdjacencyForm));
        }
    }
    Ok(())
}

/// Checks whether the ends of each link have one network type, and each router a router id of its
/// own.
pub fn try_adjacency(alloc: Global, net: &Network, configs: &List<Config>) -> Result<(), NetFault>
    requires links { length net.now.links ≤ LINK_LIMIT }
    requires routers { length configs.now ≤ ROUTER_LIMIT }
    requires named { AreDistinct (full_names configs.now) }
    ensures { (doc : Document) → AreRows doc configs.now net.now →
        TriedAlone (RefusesAdjacencyForm doc configs.now) result }
{
    try_types(net, configs)?;
    try_router_ids(alloc, configs)
}
