//! The links of the document: the interfaces that they join, and the numbers of those that are to
//! be down.
ghost use Rattle.net_rules.specs.Linking.{JoinsNamed, RefusesLinkFace, RefusesDownLinks};
ghost use Rattle.net_rules.specs.Linking.{first_above};
ghost use Rattle.net_rules.specs.Names.{names_at};
ghost use Rattle.net_rules.specs.Reasons.{Tried, TriedAlone};
ghost use Rattle.net_rules.specs.Rows.{IsLinkRow};
ghost use Rattle.net_rules.specs.Sites.{a_end, b_end, ends_of, full_names};
ghost use Rattle.std.specs.List.{AllZip};
ghost use Rattle.std.specs.Prelude.{◌≡◌, ◌≢◌, ◌⊎◌, ◌≤◌, [], ◌∷◌, ◌++◌, Contains, IfOk, OnOk};
ghost use Rattle.std.specs.Prelude.{MatchBool, MatchOption, length, option_copied};

use arc_base::limits::LINK_LIMIT;
use arc_base::{Face, Kind, List, Memory};
use indexmap::IndexSet;
use ios_config::Config;
use net_doc::{NetFault, Refusal};
use net_model::{Document, LinkRow, LinkText};
use net_rules::{FaceKind, FullName, add_name, in_document, place_of};
use std::alloc::Global;

/// The row of a link, or `None` where it does not join two interfaces as it should. Whether another
/// link uses them is not asked here.
fn link_row(names: &IndexSet<FullName<'_>>, link: &LinkText) -> Result<Option<LinkRow>, Memory>
    ensures { IfOk result (λ found. MatchOption found
        (¬ JoinsNamed (names_at names.now.keys) link.now)
        (λ row. JoinsNamed (names_at names.now.keys) link.now ×
        IsLinkRow (names_at names.now.keys) link.now row)) }
{
    if FaceKind::of(link.a_face.bytes()).is_loopback() {
        return Ok(None);
    }
    if FaceKind::of(link.b_face.bytes()).is_loopback() {
        return Ok(None);
    }
    if link.a_router.is(link.b_router.bytes()) {
        return Ok(None);
    }
    let Some(a) = place_of(names, link.a_router.bytes(), link.a_face.bytes()) else {
        return Ok(None);
    };
    let Some(b) = place_of(names, link.b_router.bytes(), link.b_face.bytes()) else {
        return Ok(None);
    };
    Ok(Some(LinkRow {
        a: Face(narrow(a)?),
        b: Face(narrow(b)?),
        waypoint: link.waypoint,
    }))
}

/// The place of an interface in 32 bits. `Memory` where it does not fit.
pub fn narrow(place: usize) -> Result<u32, Memory>
    ensures { IfOk result (λ narrowed. narrowed ≡ place) }
{
    if place < u32::MAX as usize {
        return Ok(place as u32);
    }
    Err(Memory)
}

/// Adds the two ends of a link, which differ, and says whether both are new.
fn add_ends<'a>(ends: &mut IndexSet<FullName<'a>>, link: &'a LinkText) -> Result<bool, Memory>
    requires { a_end link.now ≢ b_end link.now }
    ensures { IfOk result (λ new. MatchBool new
        ((¬ Contains (names_at ends.old.keys) (a_end link.now))
        × (¬ Contains (names_at ends.old.keys) (b_end link.now)) × (names_at ends.new.keys
        ≡ names_at ends.old.keys ++ (a_end link.now ∷ b_end link.now ∷ [])))
        (Contains (names_at ends.old.keys) (a_end link.now)
        ⊎ Contains (names_at ends.old.keys) (b_end link.now))) }
{
    let a_new = add_name(ends, link.a_router.bytes(), link.a_face.bytes())?;
    if !a_new {
        return Ok(false);
    }
    let b_new = add_name(ends, link.b_router.bytes(), link.b_face.bytes())?;
    Ok(b_new)
}

/// Checks whether each link joins two interfaces as it should, and gives the rows of the links.
/// Their ends are added to an index, which is empty before.
pub fn try_links<'a>(
    alloc: Global,
    doc: &'a Document,
    configs: &List<Config>,
    names: &IndexSet<FullName<'_>>,
    ends: &mut IndexSet<FullName<'a>>,
) -> Result<List<LinkRow>, NetFault>
    requires names { names_at names.now.keys ≡ full_names configs.now }
    requires empty { ends.old.keys ≡ [] }
    requires few { length doc.now.links ≤ LINK_LIMIT }
    ensures tried { Tried (RefusesLinkFace doc.now configs.now)
        (AllZip (IsLinkRow (full_names configs.now)) doc.now.links) result }
    ensures ends { OnOk result (names_at ends.new.keys ≡ ends_of doc.now.links) }
{
    let mut rows = List::make(alloc);
    for (place, link) in doc.links.slice().iter().enumerate() {
        let Some(row) = link_row(names, link)? else {
            return Err(in_document(place, Kind::LinkFace));
        };
        if !add_ends(ends, link)? {
            return Err(in_document(place, Kind::LinkFace));
        }
        rows.push(row)?;
    }
    Ok(rows)
}

/// The first of the numbers that is above the number of links.
fn first_above(links: u32, numbers: &[u32]) -> Option<&u32>
    ensures { option_copied result ≡ first_above links numbers.now }
{
    numbers.iter().find(|number| links < **number)
}

/// Checks whether these are numbers of the document's links.
pub fn try_down_links(doc: &Document, down: &[u32]) -> Result<(), NetFault>
    ensures { TriedAlone (RefusesDownLinks doc.now down.now) result }
{
    match first_above(doc.links.len(), down) {
        Some(number) => Err(NetFault::Refused(Refusal {
            file: 0,
            number: *number,
            kind: Kind::LinkFace,
        })),
        None => Ok(()),
    }
}
