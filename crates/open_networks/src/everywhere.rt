//! OSPF at every end of a link, and every host network advertised.
ghost use Rattle.any_forwarding_laws.specs.Forwardings.{IsOpenNetwork};
ghost use Rattle.any_forwarding_laws.specs.Laws.{RunsEverywhere, VerdictsDecideAny};
ghost use Rattle.net_model.specs.Validity.{IsValid};
ghost use Rattle.net_model.specs.declared.rows.Protocol.TheVariants.{Ospf};
ghost use Rattle.open_networks.specs.Ends.{IsActiveIfUp, HasActiveEnds, TellsHost};
ghost use Rattle.std.specs.Prelude.{◌≡◌, ◌↔◌, IsTrue, IfSome, slice_get, All};

use arc_base::Face;
use net_model::{FaceRow, LinkRow, Network, Protocol};

fn is_ospf(protocol: Protocol) -> bool
    ensures { IsTrue result ↔ (protocol ≡ Ospf) }
{
    match protocol {
        Protocol::Ospf => true,
        Protocol::Bgp => false,
    }
}

fn is_active_if_up(face: &FaceRow) -> bool
    ensures { IsTrue result ↔ IsActiveIfUp face.now }
{
    if !face.up {
        return true;
    }
    face.enabled && !face.passive && face.addr.is_some()
}

fn is_active_end(net: &Network, end: Face) -> bool
    ensures { IsTrue result ↔ IfSome (slice_get net.now.faces end.0) IsActiveIfUp }
{
    let Some(face) = net.faces.get(end.0) else {
        return true;
    };
    is_active_if_up(face)
}

fn has_active_ends(net: &Network, link: &LinkRow) -> bool
    ensures { IsTrue result ↔ HasActiveEnds net.now link.now }
{
    is_active_end(net, link.a) && is_active_end(net, link.b)
}

fn have_active_ends(net: &Network) -> bool
    ensures { IsTrue result ↔ All (HasActiveEnds net.now) net.now.links }
{
    net.links
        .slice()
        .iter()
        .all(|link| has_active_ends(net, link))
}

fn tells_host(face: &FaceRow) -> bool
    ensures { IsTrue result ↔ TellsHost face.now }
{
    if face.host.is_none() {
        return true;
    }
    face.told
}

fn tell_hosts(net: &Network) -> bool
    ensures { IsTrue result ↔ All TellsHost net.now.faces }
{
    net.faces.slice().iter().all(|face| tells_host(face))
}

/// Whether OSPF runs everywhere: at each end of a link that is up, and that then has an address and
/// is not passive, with each host network advertised. A valid network is then open, and a right
/// verdict on a blocked or through policy says what holds for any forwarding.
pub fn runs_everywhere(net: &Network) -> bool
    ensures exact { IsTrue result ↔ RunsEverywhere net.now }
    ensures opened { IsValid net.now → IsTrue result → IsOpenNetwork net.now }
    ensures decide { IsValid net.now → IsTrue result → VerdictsDecideAny net.now }
{
    if !is_ospf(net.protocol) {
        return false;
    }
    if !have_active_ends(net) {
        return false;
    }
    tell_hosts(net)
}
