//! What the lines of BGP processes name: neighbours at the far ends of links, and connected
//! networks.
ghost use Rattle.arc_base.specs.Lists.{AreDistinct};
ghost use Rattle.arc_base.specs.declared.refusal.Kind.TheVariants as kinds;
ghost use Rattle.ios_config.specs.Least.{FindsLeast};
ghost use Rattle.ios_config.specs.declared.settings.Config.{Config};
ghost use Rattle.ios_config.specs.declared.settings.Given.{Given};
ghost use Rattle.net_checks.specs.FarEnds.{FindsOnly, LeadsTo, LinkLeadsTo, AddsFarEnd, IsListed};
ghost use Rattle.net_checks.specs.FarEnds.{IsReached};
ghost use Rattle.net_checks.specs.Subnets.{AreSubnets};
ghost use Rattle.net_model.specs.declared.policies.Document.{Document};
ghost use Rattle.net_rules.specs.Forms.{IsWellFormed, IsWellFormedFace};
ghost use Rattle.net_rules.specs.Neighbors.{names_peer, remote_of, says_remote};
ghost use Rattle.net_rules.specs.Peers.{NamesOther, RefusesNeighbor, RefusesNetwork};
ghost use Rattle.net_rules.specs.Peers.{TellsUnconnected};
ghost use Rattle.net_rules.specs.Reasons.{TriedAlone, InFiles};
ghost use Rattle.net_rules.specs.Rows.{AreBaseRows};
ghost use Rattle.net_rules.specs.Settings.{lines_of};
ghost use Rattle.net_rules.specs.Sites.{full_names};
ghost use Rattle.std.specs.Prelude.{◌≡◌, ◌≤◌, ◌<◌, ◌↔◌, ◌⊎◌, ℕ, Any, All, Contains, IfOk, IsTrue};
ghost use Rattle.std.specs.Prelude.{IsSome, length};

use arc_base::limits::ROUTER_LIMIT;
use arc_base::{Face, Kind, List, Memory};
use indexmap::IndexSet;
use ios_config::{Config, FaceText, Given, lesser};
use ios_words::Command;
use net_doc::NetFault;
use net_model::Network;
use net_rules::{
    Prefixes, add_prefix, address_at, address_of, has_prefix, in_file, lines_of, subnet_of,
};
use std::alloc::Global;

/// A router and the address of the far end of one of its links.
type FarEnd = (u32, u32);

/// The pair of the router of the one interface and the address of the other.
fn far_end(net: &Network, near: Face, far: Face) -> Option<FarEnd>
    ensures { FindsOnly (LeadsTo net.now.faces near far) result }
{
    let row = net.faces.get(near.0)?;
    let address = address_at(net, far)?;
    Some((row.router.0, address))
}

fn add_far_end(
    ends: &mut IndexSet<FarEnd>,
    net: &Network,
    near: Face,
    far: Face,
) -> Result<(), Memory>
    ensures { IfOk result (λ done. AddsFarEnd net.now.faces near far ends.old.keys ends.new.keys) }
{
    if let Some(pair) = far_end(net, near, far) {
        ends.insert_full(pair)?;
    }
    Ok(())
}

/// The far ends of the links of all routers.
fn far_ends(alloc: Global, net: &Network) -> Result<IndexSet<FarEnd>, Memory>
    ensures { IfOk result (λ ends. (pair : ℕ × ℕ) →
        Contains ends.keys pair ↔ Any (LinkLeadsTo net.now.faces pair) net.now.links) }
{
    let mut ends = IndexSet::new(alloc);
    for link in net.links.slice() {
        add_far_end(&mut ends, net, link.a, link.b)?;
        add_far_end(&mut ends, net, link.b, link.a)?;
    }
    Ok(ends)
}

fn add_remote(peers: &mut IndexSet<u32>, command: &Command) -> Result<(), Memory>
    ensures { IfOk result (λ done. (peer : ℕ) → Contains peers.new.keys peer ↔
        (Contains peers.old.keys peer ⊎ IsSome (says_remote peer command.now))) }
{
    if let Command::RemoteAs(peer, _) = command {
        peers.insert_full(*peer)?;
    }
    Ok(())
}

/// The neighbours to which the lines give an AS.
fn remotes(alloc: Global, lines: &[Given<Command>]) -> Result<IndexSet<u32>, Memory>
    ensures { IfOk result (λ peers. (peer : ℕ) →
        Contains peers.keys peer ↔ IsSome (remote_of lines.now peer)) }
{
    let mut peers = IndexSet::new(alloc);
    for line in lines {
        add_remote(&mut peers, &line.value)?;
    }
    Ok(peers)
}

/// The neighbour that the command names.
fn names_peer(command: &Command) -> Option<u32>
    ensures { result ≡ names_peer command.now }
{
    match command {
        Command::RemoteAs(peer, _) => Some(*peer),
        Command::NeighborDown(peer, _) => Some(*peer),
        Command::NeighborList(peer, _) => Some(*peer),
        _ => None,
    }
}

fn is_listed(ends: &IndexSet<FarEnd>, remotes: &IndexSet<u32>, router: u32, peer: u32) -> bool
    ensures { IsTrue result ↔ IsListed ends.now.keys remotes.now.keys router peer }
{
    ends.contains(&(router, peer)) && remotes.contains(&peer)
}

fn names_unknown(
    ends: &IndexSet<FarEnd>,
    remotes: &IndexSet<u32>,
    router: u32,
    line: &Given<Command>,
) -> Option<u32>
    ensures { FindsLeast
        (λ n. NamesOther (IsListed ends.now.keys remotes.now.keys router) n line.now) result }
{
    let peer = names_peer(&line.value)?;
    if is_listed(ends, remotes, router, peer) {
        return None;
    }
    Some(line.line)
}

/// The first line of the file that names a neighbour which is not known.
fn unknown_peer(
    alloc: Global,
    ends: &IndexSet<FarEnd>,
    router: u32,
    config: &Config,
) -> Result<Option<u32>, Memory>
    ensures { IfOk result (FindsLeast (λ n.
        Any (NamesOther (IsReached ends.now.keys router config.now) n) (lines_of config.now))) }
{
    let lines = lines_of(config);
    let remotes = remotes(alloc, lines)?;
    let mut least = None;
    for line in lines {
        least = lesser(least, names_unknown(ends, &remotes, router, line));
    }
    Ok(least)
}

/// Checks whether each neighbour is among these far ends and has an AS.
fn try_known(alloc: Global, ends: &IndexSet<FarEnd>, configs: &List<Config>) -> Result<(), NetFault>
    requires few { length configs.now ≤ ROUTER_LIMIT }
    ensures { TriedAlone (InFiles kinds.NeighborUnknown (λ place config line.
        Any (NamesOther (IsReached ends.now.keys place config) line) (lines_of config)) configs.now)
        result }
{
    for (place, config) in configs.slice().iter().enumerate() {
        match unknown_peer(alloc, ends, place as u32, config)? {
            Some(line) => return Err(in_file(place, line, Kind::NeighborUnknown)),
            None => {}
        }
    }
    Ok(())
}

/// Checks whether each neighbour is the far end of a link and has an AS. The network has its
/// interfaces and links.
pub fn try_neighbors(alloc: Global, net: &Network, configs: &List<Config>) -> Result<(), NetFault>
    requires few { length configs.now ≤ ROUTER_LIMIT }
    requires named { AreDistinct (full_names configs.now) }
    ensures { (doc : Document) → AreBaseRows doc configs.now net.now →
        TriedAlone (RefusesNeighbor doc configs.now) result }
{
    let ends = far_ends(alloc, net)?;
    try_known(alloc, &ends, configs)
}

/// The connected subnets of the interfaces.
fn subnets(alloc: Global, faces: &List<FaceText>) -> Result<Prefixes, Memory>
    requires { All IsWellFormedFace faces.now }
    ensures { IfOk result (λ subnets. AreSubnets faces.now subnets.keys) }
{
    let mut subnets = IndexSet::new(alloc);
    for face in faces.slice() {
        if let Some(subnet) = subnet_of(address_of(face)) {
            add_prefix(&mut subnets, &subnet)?;
        }
    }
    Ok(subnets)
}

/// The line, if it is a network statement for none of these subnets.
fn tells_unconnected(subnets: &Prefixes, line: &Given<Command>) -> Option<u32>
    ensures { (config : Config) → AreSubnets config.faces subnets.now.keys →
        FindsLeast (λ n. TellsUnconnected config n line.now) result }
{
    match &line.value {
        Command::Tells(p) => {
            if has_prefix(subnets, p) {
                None
            } else {
                Some(line.line)
            }
        }
        _ => None,
    }
}

/// The first network statement of the file for a network that is not connected.
fn unconnected(alloc: Global, config: &Config) -> Result<Option<u32>, Memory>
    requires { IsWellFormed config.now }
    ensures { IfOk result
        (FindsLeast (λ n. Any (TellsUnconnected config.now n) (lines_of config.now))) }
{
    let subnets = subnets(alloc, &config.faces)?;
    let mut least = None;
    for line in lines_of(config) {
        least = lesser(least, tells_unconnected(&subnets, line));
    }
    Ok(least)
}

/// Checks whether each network statement of BGP is for a connected network.
pub fn try_networks(alloc: Global, configs: &List<Config>) -> Result<(), NetFault>
    requires few { length configs.now ≤ ROUTER_LIMIT }
    requires well_formed { All IsWellFormed configs.now }
    ensures { TriedAlone (RefusesNetwork configs.now) result }
{
    for (place, config) in configs.slice().iter().enumerate() {
        if let Some(line) = unconnected(alloc, config)? {
            return Err(in_file(place, line, Kind::NetworkNotConnected));
        }
    }
    Ok(())
}
