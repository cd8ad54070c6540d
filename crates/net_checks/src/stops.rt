//! Packet lists that stop the routing protocol's own packets.
ghost use Rattle.arc_base.specs.Lists.{AreDistinct};
ghost use Rattle.net_checks.specs.FarEnds.{FindsOnly};
ghost use Rattle.net_checks.specs.Stopping.{list_line, StopsBetween, IsRefusalAt, StopsAt};
ghost use Rattle.net_checks.specs.Stopping.{StopsAtSome, FindsFirst, is_before, earlier};
ghost use Rattle.net_model.specs.Routing.{tail_end, head_end};
ghost use Rattle.net_model.specs.declared.policies.Document.{Document};
ghost use Rattle.net_rules.specs.Reasons.{TriedAlone};
ghost use Rattle.net_rules.specs.Rows.{AreRows};
ghost use Rattle.net_rules.specs.Sites.{full_names};
ghost use Rattle.net_rules.specs.Stops.{RefusesListStopsSession, StopsPackets};
ghost use Rattle.std.specs.Prelude.{◌≡◌, ◌↔◌, ◌≤◌, IsTrue, Some, slice_get, length};

use crate::session_packets::denies;
use arc_base::limits::ROUTER_LIMIT;
use arc_base::{Kind, List};
use ios_config::{Config, FaceText};
use net_doc::{NetFault, Refusal};
use net_model::{FaceRow, LinkRow, Network};
use net_rules::spot_at;

/// Whether the list bound inbound at `head` denies a packet of the protocol from the address of
/// `tail`.
fn stops(net: &Network, tail: &FaceRow, head: &FaceRow) -> bool
    ensures { IsTrue result ↔ StopsPackets net.now tail.now head.now }
{
    let Some(from) = tail.addr else { return false };
    let Some(own) = head.addr else { return false };
    let Some(id) = head.list_in else { return false };
    match net.packet_lists.get(id.0) {
        Some(list) => denies(net.protocol, list, from, own),
        None => false,
    }
}

/// The line that binds the inbound list.
fn list_line(face: &FaceText) -> u32
    ensures { result ≡ list_line face.now }
{
    match &face.list_in {
        Some(given) => given.line,
        None => 0,
    }
}

/// Whether the link is able, and the list at the head of its arc in this direction stops the
/// packets from the tail.
fn stops_between(
    net: &Network,
    link: &LinkRow,
    from_a: bool,
    tail: &FaceRow,
    head: &FaceRow,
) -> bool
    requires tail { slice_get net.now.faces (tail_end link.now from_a).0 ≡ Some tail.now }
    requires head { slice_get net.now.faces (head_end link.now from_a).0 ≡ Some head.now }
    ensures { IsTrue result ↔ StopsBetween net.now link.now from_a tail.now head.now }
{
    net.is_able_end(net.session_at(link.tail(from_a)), tail, head)
        && net.is_able_end(net.session_at(link.head(from_a)), head, tail)
        && stops(net, tail, head)
}

/// The refusal at the interface at this place of all files.
fn refusal_at(configs: &List<Config>, place: u32) -> Option<Refusal>
    requires { length configs.now ≤ ROUTER_LIMIT }
    ensures { FindsOnly (IsRefusalAt configs.now place) result }
{
    let spot = spot_at(configs, place)?;
    Some(Refusal {
        file: spot.router as u32 + 1,
        number: list_line(spot.face),
        kind: Kind::ListStopsSession,
    })
}

/// The refusal of the end of the link at which a list stops the session, if one does there.
fn stopped(net: &Network, configs: &List<Config>, link: &LinkRow, from_a: bool) -> Option<Refusal>
    requires { length configs.now ≤ ROUTER_LIMIT }
    ensures { FindsOnly (StopsAt net.now configs.now link.now from_a) result }
{
    let tail = net.faces.get(link.tail(from_a).0)?;
    let head = net.faces.get(link.head(from_a).0)?;
    if !stops_between(net, link, from_a, tail, head) {
        return None;
    }
    refusal_at(configs, link.head(from_a).0)
}

fn is_before(a: &Refusal, b: &Refusal) -> bool
    ensures { result ≡ is_before a.now b.now }
{
    a.file < b.file || (a.file == b.file && a.number < b.number)
}

/// The one that comes before the other.
fn earlier(a: Option<Refusal>, b: Option<Refusal>) -> Option<Refusal>
    ensures { result ≡ earlier a b }
{
    match a {
        None => b,
        Some(x) => match b {
            None => Some(x),
            Some(y) => {
                if is_before(&y, &x) {
                    return Some(y);
                }
                Some(x)
            }
        },
    }
}

/// The first refusal at an end of a link.
fn first_stop(net: &Network, configs: &List<Config>) -> Option<Refusal>
    requires { length configs.now ≤ ROUTER_LIMIT }
    ensures { FindsFirst (StopsAtSome net.now configs.now net.now.links) result }
{
    let mut first = None;
    for link in net.links.slice() {
        let ahead = stopped(net, configs, link, true);
        let back = stopped(net, configs, link, false);
        first = earlier(first, earlier(ahead, back));
    }
    first
}

/// Checks whether no list stops a session on a link that is able.
pub fn try_lists(net: &Network, configs: &List<Config>) -> Result<(), NetFault>
    requires few { length configs.now ≤ ROUTER_LIMIT }
    requires named { AreDistinct (full_names configs.now) }
    ensures { (doc : Document) → AreRows doc configs.now net.now →
        TriedAlone (RefusesListStopsSession doc configs.now) result }
{
    match first_stop(net, configs) {
        Some(refusal) => Err(NetFault::Refused(refusal)),
        None => Ok(()),
    }
}
