//! Subnets that overlap. They are sorted, so that each one that overlaps another is next to one
//! that it overlaps.
ghost use Rattle.arc_base.specs.Lists.{AreDistinct};
ghost use Rattle.net_checks.specs.Claims.{AreLinkedOrApart, AreOfPartners, ArePartners};
ghost use Rattle.net_checks.specs.Claims.{AreClaimsOf, ClearBelow, claim_of};
ghost use Rattle.net_model.specs.Validity.{AreLinksApart};
ghost use Rattle.net_model.specs.declared.policies.Document.{Document};
ghost use Rattle.net_rules.specs.Addressing.{RefusesOverlap, OverlapsEarlier};
ghost use Rattle.net_rules.specs.Reasons.{TriedAlone};
ghost use Rattle.net_rules.specs.Rows.{AreRows};
ghost use Rattle.net_rules.specs.Sites.{full_names, sites};
ghost use Rattle.std.specs.List.{cons_option};
ghost use Rattle.std.specs.Option.{option_map_or};
ghost use Rattle.std.specs.Prelude.{[], ◌++◌, ◌≡◌, ◌<◌, ◌≤◌, ◌^◌, IfOk, IfNone, OnOk, MatchBool};
ghost use Rattle.std.specs.Prelude.{MatchOption, All, AllPairs, length, ℕ};

use crate::claims::Claim;
use arc_base::limits::ROUTER_LIMIT;
use arc_base::{Kind, List, Memory};
use ios_config::{Config, FaceText};
use net_doc::NetFault;
use net_model::{FaceRow, LinkRow, Network};
use net_rules::{in_file, spot_at};
use std::alloc::Global;

/// Whether no two claims overlap, except for those of the two ends of a link.
fn are_linked_or_apart(claims: Vec<Claim>) -> Result<bool, Memory>
    requires { AreOfPartners claims.items }
    ensures { IfOk result (λ free. MatchBool free (AllPairs AreLinkedOrApart claims.items)
        (¬ AllPairs AreLinkedOrApart claims.items)) }
{
    let mut sorted = claims;
    sorted.sort_by_key(|claim| claim.subnet.addr)?;
    Ok(Claim::neighbours_are_linked_or_apart(&sorted))
}

/// The partner of each interface.
fn partners(alloc: Global, links: &List<LinkRow>, faces: u32) -> Result<Vec<u32>, Memory>
    requires a_within { All (λ link. link.a.0 < faces) links.now }
    requires b_within { All (λ link. link.b.0 < faces) links.now }
    requires apart { AllPairs AreLinksApart links.now }
    ensures partners { IfOk result (λ partners.
        ArePartners (length links.now) links.now partners.items) }
    ensures long { IfOk result (λ partners. length partners.items ≡ faces) }
{
    let mut partners: Vec<u32> = (0..faces).collect(alloc)?;
    for link in links.slice() {
        let LinkRow { a, b, .. } = *link;
        partners[a.0 as usize] = b.0;
        partners[b.0 as usize] = a.0;
    }
    Ok(partners)
}

/// Adds the claim of an interface, if it has a subnet.
fn add_claim(
    claims: &mut Vec<Claim>,
    place: usize,
    face: &FaceRow,
    partner: u32,
) -> Result<(), Memory>
    requires { place < 2 ^ 32 }
    ensures { OnOk result
        (claims.new.items ≡ claims.old.items ++ cons_option (claim_of face.now place partner) []) }
{
    if let Some(subnet) = face.subnet {
        claims.push(Claim {
            subnet,
            place: place as u32,
            partner,
        })?;
    }
    Ok(())
}

/// The claims of the interfaces that have a subnet.
fn claims(alloc: Global, faces: &[FaceRow], partners: &[u32]) -> Result<Vec<Claim>, Memory>
    requires long { length faces.now ≤ length partners.now }
    requires few { length partners.now < 2 ^ 32 }
    ensures { IfOk result (λ claims. AreClaimsOf faces.now partners.now claims.items) }
{
    let mut claims = Vec::new(alloc);
    for (place, face) in faces.iter().enumerate() {
        add_claim(&mut claims, place, face, partners[place])?;
    }
    Ok(claims)
}

/// Whether none of the first `count` interfaces overlaps another.
fn is_clear(alloc: Global, net: &Network, partners: &[u32], count: usize) -> Result<bool, Memory>
    requires within { count ≤ length net.now.faces }
    requires long { length partners.now ≡ length net.now.faces }
    requires partners { ArePartners (length net.now.links) net.now.links partners.now }
    requires apart { AllPairs AreLinksApart net.now.links }
    ensures { IfOk result (λ clear.
        MatchBool clear (ClearBelow net.now count) (¬ ClearBelow net.now count)) }
{
    let claims = claims(alloc, &net.faces.slice()[..count], partners)?;
    are_linked_or_apart(claims)
}

/// The index of the first interface that overlaps one before it.
fn first_overlap(alloc: Global, net: &Network) -> Result<Option<u32>, Memory>
    requires apart { AllPairs AreLinksApart net.now.links }
    requires a_within { All (λ link. link.a.0 < length net.now.faces) net.now.links }
    requires b_within { All (λ link. link.b.0 < length net.now.faces) net.now.links }
    ensures clear { IfOk result (λ found.
        IfNone found (ClearBelow net.now (length net.now.faces))) }
    ensures first { IfOk result (λ found.
        MatchOption found ((place : ℕ) → ¬ OverlapsEarlier net.now place) (λ place.
        OverlapsEarlier net.now place × ((k : ℕ) → k < place → ¬ OverlapsEarlier net.now k))) }
{
    let count = net.faces.len() as usize;
    let partners = partners(alloc, &net.links, net.faces.len())?;
    if is_clear(alloc, net, &partners, count)? {
        return Ok(None);
    }
    // the first `low` interfaces overlap nowhere, and the first `high` do
    let mut low = 0;
    let mut high = count;
    while low + 1 < high {
        let middle = low + (high - low) / 2;
        if is_clear(alloc, net, &partners, middle)? {
            low = middle;
        } else {
            high = middle;
        }
    }
    Ok(Some(low as u32))
}

fn address_line(face: &FaceText) -> u32
    ensures { result ≡ option_map_or (λ g. g.line) face.now.addr 0 }
{
    match &face.addr {
        Some(given) => given.line,
        None => 0,
    }
}

/// Checks whether no two interfaces overlap, except for the two ends of a link.
pub fn try_overlap(alloc: Global, net: &Network, configs: &List<Config>) -> Result<(), NetFault>
    requires apart { AllPairs AreLinksApart net.now.links }
    requires routers { length configs.now ≤ ROUTER_LIMIT }
    requires named { AreDistinct (full_names configs.now) }
    requires sites { length (sites configs.now) ≡ length net.now.faces }
    requires a_within { All (λ link. link.a.0 < length net.now.faces) net.now.links }
    requires b_within { All (λ link. link.b.0 < length net.now.faces) net.now.links }
    ensures tried { (doc : Document) → AreRows doc configs.now net.now →
        TriedAlone (RefusesOverlap doc configs.now) result }
    ensures clear { OnOk result (ClearBelow net.now (length net.now.faces)) }
{
    match first_overlap(alloc, net)? {
        None => Ok(()),
        Some(place) => match spot_at(configs, place) {
            None => Ok(()),
            Some(spot) => Err(in_file(spot.router, address_line(spot.face), Kind::Overlap)),
        },
    }
}
