//! The words of lines, appended to a text.
ghost use Rattle.ios_lines.specs.Written.{spaced};
ghost use Rattle.ios_words.specs.Numbers.{mask};
ghost use Rattle.ios_words.specs.Printed.{unless, verdict_word, side_words, packet_words};
ghost use Rattle.ios_words.specs.Printed.{entry_words, order_words, sequence_words, most_words};
ghost use Rattle.ios_words.specs.Printed.{length_words, route_words};
ghost use Rattle.ios_words.specs.Services.{protocol_word, port_words};
ghost use Rattle.ios_words.specs.Views.{text_of};
ghost use Rattle.std.specs.Prelude.{◌≡◌, ◌≤◌, ◌-◌, ◌^◌, ◌∷◌, ◌++◌, [], map, Some, OnOk};
ghost use Rattle.std.specs.Prelude.{if◌then◌else◌};

use crate::commands::{PacketText, RouteText};
use crate::printed_words::Word::{Address, Number, Route, Text};
use crate::protocols::protocol_name;
use arc_base::{Memory, Prefix, push_address, push_number, push_prefix};
use std::alloc::Global;

/// A word of a line, or fixed words with one space between two.
#[derive(Clone, Copy, Debug)]
pub(crate) enum Word<'a> {
    Text(&'a [u8]),
    Number(u32),
    Address(u32),
    Route(Prefix),
}

/// Adds a word.
fn push_word(alloc: Global, text: &mut Vec<u8>, word: &Word) -> Result<(), Memory>
    ensures { OnOk result (text.new.items ≡ text.old.items ++ spaced (text_of word.now ∷ [])) }
{
    text.push(b' ')?;
    match word {
        Text(word) => {
            text.extend_from_slice(word)?;
            Ok(())
        }
        Number(number) => push_number(alloc, text, u64::from(*number)),
        Address(address) => push_address(alloc, text, *address),
        Route(prefix) => push_prefix(alloc, text, prefix),
    }
}

/// Adds words.
pub(crate) fn push_words(alloc: Global, text: &mut Vec<u8>, words: &[Word]) -> Result<(), Memory>
    ensures { OnOk result (text.new.items ≡ text.old.items ++ spaced (map text_of words.now)) }
{
    for word in words {
        push_word(alloc, text, word)?;
    }
    Ok(())
}

/// Adds the words, after `no` where the setting is off.
pub(crate) fn push_unless(
    alloc: Global,
    text: &mut Vec<u8>,
    is: bool,
    words: &[Word],
) -> Result<(), Memory>
    ensures { OnOk result
        (text.new.items ≡ text.old.items ++ spaced (unless is (map text_of words.now))) }
{
    if is {
        return push_words(alloc, text, words);
    }
    push_words(alloc, text, &[Text(b"no")])?;
    push_words(alloc, text, words)
}

/// Adds a top line.
pub(crate) fn push_top(
    alloc: Global,
    text: &mut Vec<u8>,
    first: &[u8],
    words: &[Word],
) -> Result<(), Memory>
    ensures { OnOk result
        (text.new.items ≡ text.old.items ++ (first.now ++ spaced (map text_of words.now))) }
{
    text.extend_from_slice(first)?;
    push_words(alloc, text, words)
}

/// The wildcard of a length.
pub(crate) fn wildcard(len: u8) -> u32
    requires { len ≤ 32 }
    ensures { result ≡ 2 ^ (32 - len) - 1 }
{
    ((1u64 << (32 - len)) - 1) as u32
}

/// The mask of this many ones.
pub(crate) fn mask(ones: u8) -> u32
    ensures { result ≡ mask ones }
{
    ((1u64 << 32) - (1u64 << 32u8.saturating_sub(ones))) as u32
}

/// Adds the addresses of a prefix and its wildcard, or the words for one address and for all.
fn push_side(alloc: Global, text: &mut Vec<u8>, prefix: &Prefix) -> Result<(), Memory>
    ensures { OnOk result (text.new.items ≡ text.old.items ++ spaced (side_words prefix.now)) }
{
    if prefix.len == 0 {
        return push_words(alloc, text, &[Text(b"any")]);
    }
    let address = Address(prefix.addr);
    if prefix.len == 32 {
        return push_words(alloc, text, &[Text(b"host"), address]);
    }
    push_words(alloc, text, &[address, Address(wildcard(prefix.len))])
}

/// The protocol of a range of services: by its name, where it has one.
fn protocol(low: u32, high: u32) -> Word<'static>
    ensures { text_of result ≡ protocol_word low high }
{
    if low == 0 && high == 16777215 {
        return Text(b"ip");
    }
    match protocol_name(low / 65536) {
        Some(name) => Text(name),
        None => Number(low / 65536),
    }
}

/// Adds the destination ports of a range of services, if they aren't all.
fn push_ports(alloc: Global, text: &mut Vec<u8>, low: u32, high: u32) -> Result<(), Memory>
    ensures { OnOk result (text.new.items ≡ text.old.items ++ spaced (port_words low high)) }
{
    if low % 65536 == 0 && high % 65536 == 65535 {
        return Ok(());
    }
    let first = Number(low % 65536);
    if low == high {
        return push_words(alloc, text, &[Text(b"eq"), first]);
    }
    push_words(alloc, text, &[Text(b"range"), first, Number(high % 65536)])
}

/// One of two words.
pub(crate) fn either(is: bool, word: &'static [u8], other: &'static [u8]) -> Word<'static>
    ensures { text_of result ≡ (if is then word.now else other.now) }
{
    Text(if is { word } else { other })
}

/// Permit or deny.
fn verdict(permit: bool) -> Word<'static>
    ensures { text_of result ≡ verdict_word permit }
{
    either(permit, b"permit", b"deny")
}

/// Adds an entry of an extended list without its number.
fn push_packet(alloc: Global, text: &mut Vec<u8>, entry: &PacketText) -> Result<(), Memory>
    ensures { OnOk result (text.new.items ≡ text.old.items ++ spaced (packet_words entry.now)) }
{
    let protocol = protocol(entry.low, entry.high);
    push_words(alloc, text, &[verdict(entry.permit), protocol])?;
    push_side(alloc, text, &entry.from)?;
    push_side(alloc, text, &entry.to)?;
    push_ports(alloc, text, entry.low, entry.high)
}

/// Adds an entry of a list of this kind without its number.
pub(crate) fn push_entry(
    alloc: Global,
    text: &mut Vec<u8>,
    extended: bool,
    entry: &PacketText,
) -> Result<(), Memory>
    ensures { OnOk result
        (text.new.items ≡ text.old.items ++ spaced (entry_words (Some extended) entry.now)) }
{
    if extended {
        return push_packet(alloc, text, entry);
    }
    push_word(alloc, text, &verdict(entry.permit))?;
    push_side(alloc, text, &entry.from)
}

/// Adds the number before an entry, if it has one.
pub(crate) fn push_order(
    alloc: Global,
    text: &mut Vec<u8>,
    order: Option<u32>,
) -> Result<(), Memory>
    ensures { OnOk result (text.new.items ≡ text.old.items ++ spaced (order_words order)) }
{
    match order {
        Some(number) => push_words(alloc, text, &[Number(number)]),
        None => Ok(()),
    }
}

/// Adds the number of an entry of a prefix list, if it has one.
pub(crate) fn push_sequence(
    alloc: Global,
    text: &mut Vec<u8>,
    order: Option<u32>,
) -> Result<(), Memory>
    ensures { OnOk result (text.new.items ≡ text.old.items ++ spaced (sequence_words order)) }
{
    match order {
        Some(number) => push_words(alloc, text, &[Text(b"seq"), Number(number)]),
        None => Ok(()),
    }
}

/// Adds the greatest length of a route, where it is not the one that is meant without it.
fn push_most(alloc: Global, text: &mut Vec<u8>, meant: u8, high: u8) -> Result<(), Memory>
    ensures { OnOk result (text.new.items ≡ text.old.items ++ spaced (most_words meant high)) }
{
    if high == meant {
        return Ok(());
    }
    push_words(alloc, text, &[Text(b"le"), Number(u32::from(high))])
}

/// Adds the lengths of the routes inside a prefix of this length.
fn push_lengths(alloc: Global, text: &mut Vec<u8>, len: u8, low: u8, high: u8) -> Result<(), Memory>
    ensures { OnOk result (text.new.items ≡ text.old.items ++ spaced (length_words len low high)) }
{
    if low == len {
        return push_most(alloc, text, len, high);
    }
    push_words(alloc, text, &[Text(b"ge"), Number(u32::from(low))])?;
    push_most(alloc, text, 32, high)
}

/// Adds an entry of a prefix list without its number.
pub(crate) fn push_route(alloc: Global, text: &mut Vec<u8>, entry: &RouteText) -> Result<(), Memory>
    ensures { OnOk result (text.new.items ≡ text.old.items ++ spaced (route_words entry.now)) }
{
    push_words(alloc, text, &[verdict(entry.permit), Route(entry.prefix)])?;
    push_lengths(alloc, text, entry.prefix.len, entry.low, entry.high)
}
