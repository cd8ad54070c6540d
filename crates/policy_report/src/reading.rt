//! What the lines of a report are read as. Each line has one spelling.
ghost use Rattle.policy_report.specs.Readings.{line_words, count_of, link_of, all_links, side_of};
ghost use Rattle.policy_report.specs.Readings.{services_at, class_at, service_at, packet_at};
ghost use Rattle.policy_report.specs.Readings.{lone_link, after_word, closed_of, path_of, walk_of};
ghost use Rattle.policy_report.specs.Readings.{denied_of, cut_of, side_line_of, refused_of};
ghost use Rattle.std.specs.Prelude.{◌≡◌, ◌↔◌, map, option_map, slice_get, Some, IfOk, IsTrue};

use crate::services::{range_named, service_named};
use arc_base::{Link, List, Memory, read_address, read_number, read_prefix};
use net_model::{Class, ClassSide, LinkPath, Network, Packet, RouterRow, Service};
use std::alloc::{AllocError, Global};

/// The words of a line: the pieces between spaces.
pub(crate) fn line_words<'a>(alloc: Global, line: &'a [u8]) -> Result<Vec<&'a [u8]>, AllocError>
    ensures { IfOk result (λ words. map (λ word. word.now) words.items ≡ line_words line.now) }
{
    line.split(|b| *b == b' ').collect(alloc)
}

/// A number below 2^32.
pub(crate) fn count_of(word: &[u8]) -> Option<u32>
    ensures { result ≡ count_of word.now }
{
    let number = read_number(word)?;
    if number <= 4_294_967_295 {
        Some(number as u32)
    } else {
        None
    }
}

/// A link, by its number counted from 1.
fn link_of(links: usize, word: &[u8]) -> Option<Link>
    ensures { result ≡ link_of links word.now }
{
    let number = count_of(word)?;
    if number >= 1 && number as usize <= links {
        Some(Link(number - 1))
    } else {
        None
    }
}

/// The links with these numbers.
fn all_links(alloc: Global, links: usize, words: &[&[u8]]) -> Result<Option<List<Link>>, Memory>
    ensures { IfOk result (λ found. found ≡ all_links links (map (λ word. word.now) words.now)) }
{
    let mut found = Vec::new(alloc);
    for word in words {
        match link_of(links, word) {
            Some(link) => found.push(link)?,
            None => return Ok(None),
        }
    }
    Ok(Some(List::of(found)?))
}

/// Whether the router is the one that is named at this place.
fn is_named(router: &RouterRow, names: &[&[u8]], place: usize) -> bool
    ensures { IsTrue result ↔
        (slice_get (map (λ name. name.now) names.now) place ≡ Some router.now.name) }
{
    match names.get(place) {
        Some(name) => router.name.is(name),
        None => false,
    }
}

/// For each router, in order, whether it is named. The names come in that order, each once.
fn side_of(
    alloc: Global,
    routers: &[RouterRow],
    names: &[&[u8]],
) -> Result<Option<List<bool>>, Memory>
    ensures { IfOk result (λ side. side ≡ side_of routers.now (map (λ name. name.now) names.now)) }
{
    let mut side = Vec::new(alloc);
    let mut next = 0;
    for router in routers {
        let named = is_named(router, names, next);
        side.push(named)?;
        if named {
            next += 1;
        }
    }
    if next < names.len() {
        return Ok(None);
    }
    Ok(Some(List::of(side)?))
}

/// The services that the first word names, and the words after it; if it names none, all services,
/// and the words as they are.
fn services_at<'w, 'a>(words: &'w [&'a [u8]]) -> (Service, &'w [&'a [u8]])
    ensures { (result.0, map (λ word. word.now) result.1.now)
        ≡ services_at (map (λ word. word.now) words.now) }
{
    match words {
        [word, rest @ ..] => match range_named(word) {
            Some(range) => (range, rest),
            None => (Service::whole(), words),
        },
        [] => (Service::whole(), words),
    }
}

/// A class, and the words after it.
fn class_at<'w, 'a>(words: &'w [&'a [u8]]) -> Option<(Class, &'w [&'a [u8]])>
    ensures { option_map (λ found. (found.0, map (λ word. word.now) found.1.now)) result
        ≡ class_at (map (λ word. word.now) words.now) }
{
    let [from, to, rest @ ..] = words else {
        return None;
    };
    let from = read_prefix(from)?;
    let to = read_prefix(to)?;
    let (service, rest) = services_at(rest);
    Some((Class { from, to, service }, rest))
}

/// The service that the first word names, and the words after it; if it names none, the service 0,
/// and the words as they are.
fn service_at<'w, 'a>(words: &'w [&'a [u8]]) -> (u32, &'w [&'a [u8]])
    ensures { (result.0, map (λ word. word.now) result.1.now)
        ≡ service_at (map (λ word. word.now) words.now) }
{
    match words {
        [word, rest @ ..] => match service_named(word) {
            Some(service) => (service, rest),
            None => (0, words),
        },
        [] => (0, words),
    }
}

/// A packet, and the words after it.
fn packet_at<'w, 'a>(words: &'w [&'a [u8]]) -> Option<(Packet, &'w [&'a [u8]])>
    ensures { option_map (λ found. (found.0, map (λ word. word.now) found.1.now)) result
        ≡ packet_at (map (λ word. word.now) words.now) }
{
    let [from, to, rest @ ..] = words else {
        return None;
    };
    let from = read_address(from)?;
    let to = read_address(to)?;
    let (service, rest) = service_at(rest);
    Some((Packet { from, to, service }, rest))
}

/// The link, if its number is the only word.
fn lone_link(links: usize, words: &[&[u8]]) -> Option<Link>
    ensures { result ≡ lone_link links (map (λ word. word.now) words.now) }
{
    match words {
        [number] => link_of(links, number),
        _ => None,
    }
}

/// The words after this first word, if the line begins with it.
pub(crate) fn after_word<'w, 'a>(words: &'w [&'a [u8]], first: &[u8]) -> Option<&'w [&'a [u8]]>
    ensures { option_map (λ rest. map (λ word. word.now) rest.now) result
        ≡ after_word first.now (map (λ word. word.now) words.now) }
{
    match words {
        [word, rest @ ..] if *word == first => Some(rest),
        _ => None,
    }
}

/// `closed FROM TO [SERVICE] ROUTERS..`
pub(crate) fn closed_of(
    alloc: Global,
    net: &Network,
    words: &[&[u8]],
) -> Result<Option<ClassSide>, Memory>
    ensures { IfOk result (λ shown. shown ≡ closed_of net.now (map (λ word. word.now) words.now)) }
{
    let Some(rest) = after_word(words, b"closed") else {
        return Ok(None);
    };
    let Some((class, names)) = class_at(rest) else {
        return Ok(None);
    };
    match side_of(alloc, net.routers.slice(), names)? {
        Some(side) => Ok(Some(ClassSide { class, side })),
        None => Ok(None),
    }
}

/// `path LINKS..`
pub(crate) fn path_of(
    alloc: Global,
    net: &Network,
    words: &[&[u8]],
) -> Result<Option<LinkPath>, Memory>
    ensures { IfOk result (λ path. path ≡ path_of net.now (map (λ word. word.now) words.now)) }
{
    let Some(numbers) = after_word(words, b"path") else {
        return Ok(None);
    };
    match all_links(alloc, net.links.slice().len(), numbers)? {
        Some(links) => Ok(Some(LinkPath { links })),
        None => Ok(None),
    }
}

/// `walk FROM TO [SERVICE] LINKS..`
pub(crate) fn walk_of(
    alloc: Global,
    net: &Network,
    words: &[&[u8]],
) -> Result<Option<(Class, LinkPath)>, Memory>
    ensures { IfOk result (λ walk. walk ≡ walk_of net.now (map (λ word. word.now) words.now)) }
{
    let Some(rest) = after_word(words, b"walk") else {
        return Ok(None);
    };
    let Some((class, numbers)) = class_at(rest) else {
        return Ok(None);
    };
    match all_links(alloc, net.links.slice().len(), numbers)? {
        Some(links) => Ok(Some((class, LinkPath { links }))),
        None => Ok(None),
    }
}

/// `denied FROM TO [SERVICE]`
pub(crate) fn denied_of(words: &[&[u8]]) -> Option<Class>
    ensures { result ≡ denied_of (map (λ word. word.now) words.now) }
{
    let (class, rest) = class_at(after_word(words, b"denied")?)?;
    if rest.is_empty() { Some(class) } else { None }
}

/// `cut LINKS..`
pub(crate) fn cut_of(
    alloc: Global,
    net: &Network,
    words: &[&[u8]],
) -> Result<Option<List<Link>>, Memory>
    ensures { IfOk result (λ links. links ≡ cut_of net.now (map (λ word. word.now) words.now)) }
{
    match after_word(words, b"cut") {
        Some(numbers) => all_links(alloc, net.links.slice().len(), numbers),
        None => Ok(None),
    }
}

/// `side ROUTERS..`
pub(crate) fn side_line_of(
    alloc: Global,
    net: &Network,
    words: &[&[u8]],
) -> Result<Option<List<bool>>, Memory>
    ensures { IfOk result (λ side. side ≡ side_line_of net.now (map (λ word. word.now) words.now)) }
{
    match after_word(words, b"side") {
        Some(names) => side_of(alloc, net.routers.slice(), names),
        None => Ok(None),
    }
}

/// `acl-on-routed-link FROMADDR TOADDR [POINT] LINK`
pub(crate) fn refused_of(net: &Network, words: &[&[u8]]) -> Option<(Packet, Link)>
    ensures { result ≡ refused_of net.now (map (λ word. word.now) words.now) }
{
    let (packet, rest) = packet_at(after_word(words, b"acl-on-routed-link")?)?;
    let link = lone_link(net.links.slice().len(), rest)?;
    Some((packet, link))
}
