//! Words of a line, appended to a text with a space before each.
ghost use Rattle.arc_base.specs.PrefixText.{address_text, prefix_text};
ghost use Rattle.policy_report.specs.Lines.{after_spaces};
ghost use Rattle.policy_report.specs.Reports.{class_words, report_packet_words, link_words};
ghost use Rattle.policy_report.specs.Reports.{router_side_words};
ghost use Rattle.std.specs.Prelude.{◌≡◌, ◌++◌, [], ◌∷◌, cond, decimal, false, slice_index_or, OnOk};

use crate::services::{push_class_services, push_packet_service};
use arc_base::{Link, Memory, Prefix, push_address, push_number, push_prefix};
use net_model::{Class, Packet, RouterRow};
use std::alloc::Global;

/// A word.
pub fn push_word(text: &mut Vec<u8>, word: &[u8]) -> Result<(), Memory>
    ensures { OnOk result (text.new.items ≡ text.old.items ++ 32 ∷ word.now) }
{
    text.push(b' ')?;
    text.extend_from_slice(word)?;
    Ok(())
}

/// A number.
pub fn push_count(alloc: Global, text: &mut Vec<u8>, count: u64) -> Result<(), Memory>
    ensures { OnOk result (text.new.items ≡ text.old.items ++ 32 ∷ decimal count) }
{
    text.push(b' ')?;
    push_number(alloc, text, count)
}

pub(crate) fn push_prefix_word(
    alloc: Global,
    text: &mut Vec<u8>,
    prefix: &Prefix,
) -> Result<(), Memory>
    ensures { OnOk result (text.new.items ≡ text.old.items ++ 32 ∷ prefix_text prefix.now) }
{
    text.push(b' ')?;
    push_prefix(alloc, text, prefix)
}

pub(crate) fn push_address_word(
    alloc: Global,
    text: &mut Vec<u8>,
    address: u32,
) -> Result<(), Memory>
    ensures { OnOk result (text.new.items ≡ text.old.items ++ 32 ∷ address_text address) }
{
    text.push(b' ')?;
    push_address(alloc, text, address)
}

/// The two prefixes of a class, and its services if they are not all of them.
pub fn push_class(alloc: Global, text: &mut Vec<u8>, class: &Class) -> Result<(), Memory>
    ensures { OnOk result
        (text.new.items ≡ text.old.items ++ after_spaces (class_words class.now)) }
{
    push_prefix_word(alloc, text, &class.from)?;
    push_prefix_word(alloc, text, &class.to)?;
    push_class_services(alloc, text, &class.service)
}

/// The two addresses of a packet, and its service if it is not 0.
pub(crate) fn push_packet(alloc: Global, text: &mut Vec<u8>, packet: &Packet) -> Result<(), Memory>
    ensures { OnOk result
        (text.new.items ≡ text.old.items ++ after_spaces (report_packet_words packet.now)) }
{
    push_address_word(alloc, text, packet.from)?;
    push_address_word(alloc, text, packet.to)?;
    push_packet_service(alloc, text, packet.service)
}

/// The numbers of links, counted from 1.
pub fn push_links(alloc: Global, text: &mut Vec<u8>, links: &[Link]) -> Result<(), Memory>
    ensures { OnOk result (text.new.items ≡ text.old.items ++ after_spaces (link_words links.now)) }
{
    for link in links {
        push_count(alloc, text, u64::from(link.0) + 1)?;
    }
    Ok(())
}

/// The names of the routers on a side.
pub(crate) fn push_side(
    text: &mut Vec<u8>,
    routers: &[RouterRow],
    side: &[bool],
) -> Result<(), Memory>
    ensures { OnOk result
        (text.new.items ≡ text.old.items ++ after_spaces (router_side_words routers.now side.now)) }
{
    for (place, router) in routers.iter().enumerate() {
        push_if(text, router.name.bytes(), is_on(side, place))?;
    }
    Ok(())
}

fn push_if(text: &mut Vec<u8>, word: &[u8], chosen: bool) -> Result<(), Memory>
    ensures { OnOk result (text.new.items ≡ text.old.items ++ cond chosen (32 ∷ word.now) []) }
{
    if !chosen {
        return Ok(());
    }
    push_word(text, word)
}

fn is_on(side: &[bool], place: usize) -> bool
    ensures { result ≡ slice_index_or side.now place false }
{
    side.get(place).copied().unwrap_or(false)
}
