//! The BGP sessions at the ends of links, by what the lines of a process say of their neighbours.
//! The last line about a setting decides.
ghost use Rattle.arc_base.specs.Lists.{AreDistinct};
ghost use Rattle.net_model.specs.declared.policies.Document.{Document};
ghost use Rattle.net_model.specs.declared.rows.SessionRow.{SessionRow};
ghost use Rattle.net_rules.specs.Linking.{RefusesLinkFace};
ghost use Rattle.net_rules.specs.Lists.{keys_at, route_list_key};
ghost use Rattle.net_rules.specs.Neighbors.{remote_of, says_remote, says_down, says_filter};
ghost use Rattle.net_rules.specs.Neighbors.{is_down, filter_of};
ghost use Rattle.net_rules.specs.Reasons.{NoRefusal};
ghost use Rattle.net_rules.specs.Rows.{AreBaseRows, IsConfigured, AreSessions};
ghost use Rattle.net_rules.specs.Settings.{lines_of};
ghost use Rattle.row_making.specs.Sessions.{IsSessionOver, AddsOne, AddsSessions};
ghost use Rattle.std.specs.Option.{option_copied};
ghost use Rattle.std.specs.Prelude.{◌≡◌, ◌≤◌, ◌<◌, ◌^◌, Some, None, IfOk, OnOk};
ghost use Rattle.std.specs.Prelude.{MatchOption, length, map};

use crate::places_of_lists::{ListKey, place_of_list};
use arc_base::limits::ROUTER_LIMIT;
use arc_base::{Face, List, Memory, Name};
use indexmap::IndexSet;
use ios_config::{Config, Given};
use ios_words::Command;
use net_model::{Network, Protocol, SessionRow};
use net_rules::{address_at, lines_of};
use std::alloc::Global;

fn says_remote(command: &Command, peer: u32) -> Option<u32>
    ensures { result ≡ says_remote peer command.now }
{
    match command {
        Command::RemoteAs(other, asn) => { if *other == peer { Some(*asn) } else { None } }
        _ => None,
    }
}

/// The AS of the neighbour.
fn remote_of(lines: &[Given<Command>], peer: u32) -> Option<u32>
    ensures { result ≡ remote_of lines.now peer }
{
    let mut last = None;
    for line in lines {
        last = says_remote(&line.value, peer).or(last);
    }
    last
}

fn says_down(command: &Command, peer: u32) -> Option<bool>
    ensures { result ≡ says_down peer command.now }
{
    match command {
        Command::NeighborDown(other, down) => { if *other == peer { Some(*down) } else { None } }
        _ => None,
    }
}

/// Whether the neighbour is shut down.
fn is_down(lines: &[Given<Command>], peer: u32) -> bool
    ensures { result ≡ is_down lines.now peer }
{
    let mut last = None;
    for line in lines {
        last = says_down(&line.value, peer).or(last);
    }
    last.unwrap_or(false)
}

fn says_filter(command: &Command, peer: u32) -> Option<&Name>
    ensures { option_copied result ≡ says_filter peer command.now }
{
    match command {
        Command::NeighborList(other, list) => { if *other == peer { Some(list) } else { None } }
        _ => None,
    }
}

/// The name of the route list that is bound inbound at the neighbour.
fn filter_of(lines: &[Given<Command>], peer: u32) -> Option<&Name>
    ensures { option_copied result ≡ filter_of lines.now peer }
{
    let mut last = None;
    for line in lines {
        last = says_filter(&line.value, peer).or(last);
    }
    last
}

/// The session of an interface of the router at this place, if its file configures a neighbour at
/// this address.
fn session(
    lists: &IndexSet<ListKey<'_>>,
    router: u32,
    config: &Config,
    face: Face,
    peer: u32,
) -> Option<SessionRow>
    requires { length lists.now.keys < 2 ^ 32 }
    ensures { MatchOption result (remote_of (lines_of config.now) peer ≡ None) (λ session.
        (session.face ≡ face) × (session.peer ≡ peer) ×
        IsConfigured (keys_at lists.now.keys) router config.now session) }
{
    let lines = lines_of(config);
    let remote = remote_of(lines, peer)?;
    let filter = filter_of(lines, peer);
    Some(SessionRow {
        face,
        peer,
        remote,
        down: is_down(lines, peer),
        bound: filter.is_some(),
        filter: place_of_list(lists, router, filter),
    })
}

/// The session that the router has over a link which leads from the one interface to the other, if
/// it has one.
fn session_over(
    net: &Network,
    lists: &IndexSet<ListKey<'_>>,
    router: u32,
    config: &Config,
    near: Face,
    far: Face,
) -> Option<SessionRow>
    requires { length lists.now.keys < 2 ^ 32 }
    ensures { MatchOption result
        ((session : SessionRow) →
        ¬ IsSessionOver net.now.faces (keys_at lists.now.keys) router config.now near far session)
        (IsSessionOver net.now.faces (keys_at lists.now.keys) router config.now near far) }
{
    if net.faces.get(near.0)?.router.0 != router {
        return None;
    }
    let peer = address_at(net, far)?;
    session(lists, router, config, near, peer)
}

/// Adds that session, if there is one.
fn add_session(
    sessions: &mut Vec<SessionRow>,
    net: &Network,
    lists: &IndexSet<ListKey<'_>>,
    router: u32,
    config: &Config,
    near: Face,
    far: Face,
) -> Result<(), Memory>
    requires { length lists.now.keys < 2 ^ 32 }
    ensures { OnOk result
        (AddsOne (IsSessionOver net.now.faces (keys_at lists.now.keys) router config.now near far)
        sessions.old.items sessions.new.items) }
{
    if let Some(session) = session_over(net, lists, router, config, near, far) {
        sessions.push(session)?;
    }
    Ok(())
}

/// Adds the sessions of a router, in the order of their links.
fn add_sessions(
    sessions: &mut Vec<SessionRow>,
    net: &Network,
    lists: &IndexSet<ListKey<'_>>,
    router: u32,
    config: &Config,
) -> Result<(), Memory>
    requires { length lists.now.keys < 2 ^ 32 }
    ensures { OnOk result (AddsSessions net.now (keys_at lists.now.keys) router config.now
        sessions.old.items sessions.new.items) }
{
    for link in net.links.slice() {
        add_session(sessions, net, lists, router, config, link.a, link.b)?;
        add_session(sessions, net, lists, router, config, link.b, link.a)?;
    }
    Ok(())
}

/// The sessions of all routers, over the interfaces and links of the network.
pub fn session_rows(
    alloc: Global,
    net: &Network,
    configs: &List<Config>,
    lists: &IndexSet<ListKey<'_>>,
) -> Result<List<SessionRow>, Memory>
    requires few { length lists.now.keys < 2 ^ 32 }
    requires routers { length configs.now ≤ ROUTER_LIMIT }
    requires lists { keys_at lists.now.keys ≡ map route_list_key net.now.route_lists }
    requires distinct { AreDistinct (map route_list_key net.now.route_lists) }
    ensures { IfOk result (λ sessions. (doc : Document) →
        NoRefusal (RefusesLinkFace doc configs.now) → AreBaseRows doc configs.now net.now →
        AreSessions net.now.protocol configs.now net.now.links
        (map route_list_key net.now.route_lists) sessions) }
{
    match net.protocol {
        Protocol::Ospf => return Ok(List::make(alloc)),
        Protocol::Bgp => {}
    }
    let mut sessions = Vec::new(alloc);
    for (router, config) in configs.slice().iter().enumerate() {
        add_sessions(&mut sessions, net, lists, router as u32, config)?;
    }
    let rows = List::of(sessions)?;
    Ok(rows)
}
