//! The lines of witnesses.
ghost use Rattle.policy_report.specs.Lines.{line};
ghost use Rattle.policy_report.specs.Reports.{class_words, link_words, router_side_words};
ghost use Rattle.policy_report.specs.Reports.{closed_line};
ghost use Rattle.policy_report.specs.Reports.{path_line, refused_line};
ghost use Rattle.std.specs.Prelude.{◌≡◌, ◌++◌, codes, OnOk};

use crate::words::{push_class, push_count, push_links, push_packet, push_side};
use arc_base::{Link, Memory};
use net_model::{Class, ClassSide, LinkPath, Network, Packet, RouterRow};
use std::alloc::Global;

/// A class and the routers that its packets may get to.
pub(crate) fn push_closed_line(
    alloc: Global,
    text: &mut Vec<u8>,
    net: &Network,
    shown: &ClassSide,
) -> Result<(), Memory>
    ensures { OnOk result (text.new.items ≡ text.old.items ++ closed_line net.now shown.now) }
{
    text.extend_from_slice(b"closed")?;
    push_class(alloc, text, &shown.class)?;
    push_side(text, net.routers.slice(), shown.side.slice())?;
    text.push(b'\n')?;
    Ok(())
}

/// The links of a path.
pub fn push_path_line(alloc: Global, text: &mut Vec<u8>, path: &LinkPath) -> Result<(), Memory>
    ensures { OnOk result (text.new.items ≡ text.old.items ++ path_line path.now) }
{
    text.extend_from_slice(b"path")?;
    push_links(alloc, text, path.links.slice())?;
    text.push(b'\n')?;
    Ok(())
}

/// A class, and the links that its packets may go over.
pub(crate) fn push_walk_line(
    alloc: Global,
    text: &mut Vec<u8>,
    class: &Class,
    links: &[Link],
) -> Result<(), Memory>
    ensures { OnOk result (text.new.items
        ≡ text.old.items ++ line (codes "walk") (class_words class.now ++ link_words links.now)) }
{
    text.extend_from_slice(b"walk")?;
    push_class(alloc, text, class)?;
    push_links(alloc, text, links)?;
    text.push(b'\n')?;
    Ok(())
}

/// A class of which no packet gets through.
pub fn push_denied_line(alloc: Global, text: &mut Vec<u8>, class: &Class) -> Result<(), Memory>
    ensures { OnOk result
        (text.new.items ≡ text.old.items ++ line (codes "denied") (class_words class.now)) }
{
    text.extend_from_slice(b"denied")?;
    push_class(alloc, text, class)?;
    text.push(b'\n')?;
    Ok(())
}

/// The links of a cut.
pub(crate) fn push_cut_line(alloc: Global, text: &mut Vec<u8>, links: &[Link]) -> Result<(), Memory>
    ensures { OnOk result
        (text.new.items ≡ text.old.items ++ line (codes "cut") (link_words links.now)) }
{
    text.extend_from_slice(b"cut")?;
    push_links(alloc, text, links)?;
    text.push(b'\n')?;
    Ok(())
}

/// The routers on the side of a cut.
pub fn push_side_line(
    text: &mut Vec<u8>,
    routers: &[RouterRow],
    side: &[bool],
) -> Result<(), Memory>
    ensures { OnOk result (text.new.items
        ≡ text.old.items ++ line (codes "side") (router_side_words routers.now side.now)) }
{
    text.extend_from_slice(b"side")?;
    push_side(text, routers, side)?;
    text.push(b'\n')?;
    Ok(())
}

/// A packet, and the link on which it is denied.
pub fn push_refused_line(
    alloc: Global,
    text: &mut Vec<u8>,
    packet: &Packet,
    link: Link,
) -> Result<(), Memory>
    ensures { OnOk result (text.new.items ≡ text.old.items ++ refused_line packet.now link) }
{
    text.extend_from_slice(b"acl-on-routed-link")?;
    push_packet(alloc, text, packet)?;
    push_count(alloc, text, u64::from(link.0) + 1)?;
    text.push(b'\n')?;
    Ok(())
}
