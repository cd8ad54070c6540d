//! What is asked of two ends: the addresses at those of a link, and the host networks between which
//! a policy goes.
ghost use Rattle.arc_base.specs.declared.refusal.Kind.TheVariants as kinds;
ghost use Rattle.net_model.specs.Validity.{IsValid};
ghost use Rattle.net_rules.specs.Addressing.{HasEndpoints};
ghost use Rattle.net_rules.specs.Linking.{HaveOneSubnet, FitsSubnets};
ghost use Rattle.net_rules.specs.Reasons.{TriedAlone, InDocument};
ghost use Rattle.std.specs.Prelude.{◌≡◌, ◌≤◌, ◌↔◌, IsTrue, length, All, OnOk};

use arc_base::limits::{LINK_LIMIT, POLICY_LIMIT};
use arc_base::{Kind, Prefix};
use net_doc::NetFault;
use net_model::{Document, FaceRow, LinkRow, Network};
use net_rules::in_document;

fn are_same(a: &Option<Prefix>, b: &Option<Prefix>) -> bool
    ensures { IsTrue result ↔ (a.now ≡ b.now) }
{
    match a {
        None => b.is_none(),
        Some(p) => match b {
            None => false,
            Some(q) => p.is(q),
        },
    }
}

/// Whether the addresses differ and lie in one subnet, where both interfaces have one.
fn have_one_subnet(f: &FaceRow, g: &FaceRow) -> bool
    ensures { IsTrue result ↔ HaveOneSubnet f.now g.now }
{
    let Some(x) = f.addr else { return true };
    let Some(y) = g.addr else { return true };
    x != y && are_same(&f.subnet, &g.subnet)
}

/// Whether this holds of the link's two ends.
fn fits_subnets(net: &Network, link: &LinkRow) -> bool
    ensures { IsTrue result ↔ FitsSubnets net.now link.now }
{
    let Some(f) = net.faces.get(link.a.0) else {
        return true;
    };
    let Some(g) = net.faces.get(link.b.0) else {
        return true;
    };
    have_one_subnet(f, g)
}

/// Checks whether it holds of each link.
pub fn try_subnets(net: &Network) -> Result<(), NetFault>
    requires { length net.now.links ≤ LINK_LIMIT }
    ensures { TriedAlone
        (InDocument kinds.LinkSubnets (λ place link. ¬ FitsSubnets net.now link) net.now.links)
        result }
{
    for (place, link) in net.links.slice().iter().enumerate() {
        if !fits_subnets(net, link) {
            return Err(in_document(place, Kind::LinkSubnets));
        }
    }
    Ok(())
}

/// Whether the two prefixes lie in two different host networks.
pub fn has_endpoints(net: &Network, from: Prefix, to: Prefix) -> bool
    requires { IsValid net.now }
    ensures { IsTrue result ↔ HasEndpoints net.now from to }
{
    match net.host_of(from) {
        None => false,
        Some(source) => match net.host_of(to) {
            None => false,
            Some(target) => source.0 != target.0,
        },
    }
}

/// Checks whether each policy goes from one host network to another.
pub fn try_endpoints(net: &Network, doc: &Document) -> Result<(), NetFault>
    requires few { length doc.now.policies ≤ POLICY_LIMIT }
    requires valid { IsValid net.now }
    ensures tried { TriedAlone (InDocument kinds.Endpoint
        (λ place policy. ¬ HasEndpoints net.now policy.from policy.to) doc.now.policies) result }
    ensures ends { OnOk result
        (All (λ policy. HasEndpoints net.now policy.from policy.to) doc.now.policies) }
{
    for (place, policy) in doc.policies.slice().iter().enumerate() {
        if !has_endpoints(net, policy.from, policy.to) {
            return Err(in_document(place, Kind::Endpoint));
        }
    }
    Ok(())
}
