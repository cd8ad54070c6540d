//! The network of the settings of all files, or the first refusal of the checks in their order.
ghost use Rattle.arc_base.specs.Lists.{AreDistinct};
ghost use Rattle.net_build.specs.Networks.{Assembles};
ghost use Rattle.net_build.specs.Order.{RefusesWithin, AnswersTries, router_tries, link_tries};
ghost use Rattle.net_build.specs.Order.{network_tries, end_tries, session_tries};
ghost use Rattle.net_model.specs.Validity.{IsValid};
ghost use Rattle.net_model.specs.declared.policies.Document.{Document};
ghost use Rattle.net_rules.specs.Addressing.{HasEndpoints};
ghost use Rattle.net_rules.specs.Forms.{IsWellFormed};
ghost use Rattle.net_rules.specs.Linking.{RefusesLinkFace};
ghost use Rattle.net_rules.specs.Lists.{ArePacketLists, AreRouteLists, packet_list_key};
ghost use Rattle.net_rules.specs.Lists.{route_list_key};
ghost use Rattle.net_rules.specs.Names.{names_at};
ghost use Rattle.net_rules.specs.Reasons.{NoRefusal};
ghost use Rattle.net_rules.specs.Routers.{RefusesHostname};
ghost use Rattle.net_rules.specs.Rows.{IsFaceRow, IsLinkRow, AreBaseRows, AreRows, AreSessions};
ghost use Rattle.net_rules.specs.Sites.{sites, full_names, ends_of};
ghost use Rattle.std.specs.List.{AllZip};
ghost use Rattle.std.specs.Prelude.{◌≡◌, ◌≤◌, ℕ, List, [], All, IfOk, OnOk, length, map};

use arc_base::limits::{LINK_LIMIT, POLICY_LIMIT, ROUTER_LIMIT};
use arc_base::{List, Memory};
use indexmap::IndexSet;
use ios_config::Config;
use net_checks::{
    try_adjacency, try_areas, try_as_numbers, try_endpoints, try_entries, try_hostnames,
    try_interfaces, try_lists, try_neighbors, try_networks, try_overlap, try_processes,
    try_subnets,
};
use net_doc::NetFault;
use net_model::{Document, FaceRow, LinkRow, Network, PacketList, Protocol, SessionRow};
use net_rules::{FullName, index_names, protocol_of};
use row_making::{
    Surroundings, face_rows, index_packet_lists, index_route_lists, packet_lists, route_lists,
    router_rows, session_rows, try_down_links, try_links,
};
use std::alloc::Global;

/// Checks hostnames, processes, areas and AS numbers.
fn try_routers(alloc: Global, configs: &List<Config>) -> Result<(), NetFault>
    requires { length configs.now ≤ ROUTER_LIMIT }
    ensures { (down : List ℕ) (most : ℕ) (doc : Document) →
        AnswersTries (RefusesWithin down most doc configs.now) router_tries (λ done. Unit {0})
        result }
{
    try_hostnames(alloc, configs)?;
    try_processes(configs)?;
    try_areas(alloc, configs)?;
    try_as_numbers(alloc, configs)
}

fn faces_of(
    alloc: Global,
    protocol: Protocol,
    ends: &IndexSet<FullName<'_>>,
    lists: &List<PacketList>,
    configs: &List<Config>,
) -> Result<List<FaceRow>, Memory>
    requires few { length configs.now ≤ ROUTER_LIMIT }
    requires well_formed { All IsWellFormed configs.now }
    requires lists { ArePacketLists configs.now lists.now }
    ensures { IfOk result
        (AllZip (IsFaceRow protocol (names_at ends.now.keys) (map packet_list_key lists.now))
        (sites configs.now)) }
{
    let lists = index_packet_lists(alloc, lists)?;
    let around = Surroundings {
        protocol,
        ends,
        lists: &lists,
    };
    face_rows(alloc, &around, configs)
}

/// The rows of the network over these links, without the sessions.
fn rows(
    alloc: Global,
    configs: &List<Config>,
    ends: &IndexSet<FullName<'_>>,
    links: List<LinkRow>,
) -> Result<Network, Memory>
    requires few { length configs.now ≤ ROUTER_LIMIT }
    requires well_formed { All IsWellFormed configs.now }
    ensures { IfOk result (λ net. (doc : Document) → names_at ends.now.keys ≡ ends_of doc.links →
        AllZip (IsLinkRow (full_names configs.now)) doc.links links →
        AreBaseRows doc configs.now net) }
{
    let protocol = protocol_of(configs);
    let routers = router_rows(alloc, protocol, configs)?;
    let packet_lists = packet_lists(alloc, configs)?;
    let route_lists = route_lists(alloc, configs)?;
    let faces = faces_of(alloc, protocol, ends, &packet_lists, configs)?;
    Ok(Network {
        protocol,
        routers,
        faces,
        sessions: List::make(alloc),
        links,
        packet_lists,
        route_lists,
    })
}

/// The links of the document, with their ends in the set, or the first refusal of the links and of
/// those to be down.
fn links_of<'a>(
    alloc: Global,
    doc: &'a Document,
    configs: &List<Config>,
    down: &[u32],
    ends: &mut IndexSet<FullName<'a>>,
) -> Result<List<LinkRow>, NetFault>
    requires links { length doc.now.links ≤ LINK_LIMIT }
    requires named { AreDistinct (full_names configs.now) }
    requires empty { ends.old.keys ≡ [] }
    ensures answer { (most : ℕ) →
        AnswersTries (RefusesWithin down.now most doc.now configs.now) end_tries
        (AllZip (IsLinkRow (full_names configs.now)) doc.now.links) result }
    ensures ends { OnOk result (names_at ends.new.keys ≡ ends_of doc.now.links) }
{
    let names = index_names(alloc, configs)?;
    let links = try_links(alloc, doc, configs, &names, ends)?;
    try_down_links(doc, down)?;
    Ok(links)
}

/// The sessions of the network, or the first refusal of neighbours and of `network` lines.
fn try_sessions(
    alloc: Global,
    net: &Network,
    configs: &List<Config>,
) -> Result<List<SessionRow>, NetFault>
    requires few { length configs.now ≤ ROUTER_LIMIT }
    requires well_formed { All IsWellFormed configs.now }
    requires named { AreDistinct (full_names configs.now) }
    requires lists { AreRouteLists configs.now net.now.route_lists }
    ensures { (down : List ℕ) (most : ℕ) (doc : Document) →
        NoRefusal (RefusesLinkFace doc configs.now) → AreBaseRows doc configs.now net.now →
        AnswersTries (RefusesWithin down most doc configs.now) session_tries
        (AreSessions net.now.protocol configs.now net.now.links
        (map route_list_key net.now.route_lists)) result }
{
    try_neighbors(alloc, net, configs)?;
    try_networks(alloc, configs)?;
    let lists = index_route_lists(alloc, &net.route_lists)?;
    let sessions = session_rows(alloc, net, configs, &lists)?;
    Ok(sessions)
}

/// The network of routers that passed their checks, or the first refusal of the links, of those to
/// be down, of neighbours and of `network` lines.
fn joined(
    alloc: Global,
    doc: &Document,
    configs: &List<Config>,
    down: &[u32],
) -> Result<Network, NetFault>
    requires few { length configs.now ≤ ROUTER_LIMIT }
    requires links { length doc.now.links ≤ LINK_LIMIT }
    requires well_formed { All IsWellFormed configs.now }
    requires named { AreDistinct (full_names configs.now) }
    ensures { (most : ℕ) →
        AnswersTries (RefusesWithin down.now most doc.now configs.now) link_tries
        (AreRows doc.now configs.now) result }
{
    let mut ends = IndexSet::new(alloc);
    let links = links_of(alloc, doc, configs, down, &mut ends)?;
    let mut net = rows(alloc, configs, &ends, links)?;
    net.sessions = try_sessions(alloc, &net, configs)?;
    Ok(net)
}

/// Checks the network once its links are valid: overlaps, subnets, lists, adjacencies, interfaces,
/// entries and endpoints.
fn try_network(
    alloc: Global,
    doc: &Document,
    configs: &List<Config>,
    net: &Network,
    most_entries: u32,
) -> Result<(), NetFault>
    requires few { length configs.now ≤ ROUTER_LIMIT }
    requires links { length doc.now.links ≤ LINK_LIMIT }
    requires policies { length doc.now.policies ≤ POLICY_LIMIT }
    requires well_formed { All IsWellFormed configs.now }
    requires named { NoRefusal (RefusesHostname configs.now) }
    requires joined { NoRefusal (RefusesLinkFace doc.now configs.now) }
    requires rows { AreRows doc.now configs.now net.now }
    ensures answer { (down : List ℕ) →
        AnswersTries (RefusesWithin down most_entries doc.now configs.now) network_tries
        (λ done. Unit {0}) result }
    ensures valid { OnOk result (IsValid net.now) }
    ensures ends { OnOk result
        (All (λ policy. HasEndpoints net.now policy.from policy.to) doc.now.policies) }
{
    try_overlap(alloc, net, configs)?;
    try_subnets(net)?;
    try_lists(net, configs)?;
    try_adjacency(alloc, net, configs)?;
    try_interfaces(configs)?;
    try_entries(configs, most_entries)?;
    try_endpoints(net, doc)
}

/// The network of a document and of the settings of the files that it names, in the document's
/// order, or the first refusal.
pub fn assemble(
    alloc: Global,
    doc: &Document,
    configs: &List<Config>,
    down: &[u32],
    most_entries: u32,
) -> Result<Network, NetFault>
    requires few { length configs.now ≤ ROUTER_LIMIT }
    requires links { length doc.now.links ≤ LINK_LIMIT }
    requires policies { length doc.now.policies ≤ POLICY_LIMIT }
    requires well_formed { All IsWellFormed configs.now }
    ensures answer { Assembles down.now most_entries doc.now configs.now result }
    ensures valid { IfOk result IsValid }
    ensures ends { IfOk result (λ net.
        All (λ policy. HasEndpoints net policy.from policy.to) doc.now.policies) }
{
    try_routers(alloc, configs)?;
    let net = joined(alloc, doc, configs, down)?;
    try_network(alloc, doc, configs, &net, most_entries)?;
    Ok(net)
}
