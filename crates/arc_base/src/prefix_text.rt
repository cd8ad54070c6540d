//! Numbers, addresses and prefixes as text: in decimal digits with no zero before another digit,
//! addresses in four bytes with dots between them, prefixes as `A/L` (RFC 4632).
ghost use Rattle.arc_base.specs.PrefixText.{BeginsAsNumber, number_of, address_of, prefix_of};
ghost use Rattle.arc_base.specs.PrefixText.{address_text, prefix_text, PrefixTextsAreExact};
ghost use Rattle.std.specs.Prelude.{◌≡◌, ◌↔◌, ◌++◌, Some, decimal, IsTrue, OnOk};

use crate::cut::cut_at;
use crate::memory::Memory;
use crate::prefix::Prefix;
use std::alloc::Global;
use std::net::Ipv4Addr;
use std::str;

/// Parses a decimal number: no sign, no blank and no leading zero.
pub fn read_number(text: &[u8]) -> Option<u64>
    ensures { result ≡ number_of text.now }
{
    if !begins_as_number(text) {
        return None;
    }
    match str::from_utf8(text) {
        Ok(digits) => digits.parse().ok(),
        Err(_) => None,
    }
}

/// Whether the text is a lone 0 or begins with another digit.
fn begins_as_number(text: &[u8]) -> bool
    ensures { IsTrue result ↔ BeginsAsNumber text.now }
{
    matches!(text, [b'0'] | [b'1'..=b'9', ..])
}

/// Parses an IPv4 address in dotted decimal.
pub fn read_address(text: &[u8]) -> Option<u32>
    ensures { result ≡ address_of text.now }
{
    match Ipv4Addr::parse_ascii(text) {
        Ok(address) => Some(address.to_bits()),
        Err(_) => None,
    }
}

/// Parses a prefix, as `10.0.0.0/8`. It has no bit past its length.
pub fn read_prefix(text: &[u8]) -> Option<Prefix>
    ensures { result ≡ prefix_of text.now }
{
    let (addr, len) = cut_at(text, b'/')?;
    let addr = read_address(addr)?;
    let len = read_number(len)?;
    if len > 32 {
        return None;
    }
    Prefix::new(addr, len as u8)
}

/// Appends a number in decimal to a text.
pub fn push_number(alloc: Global, text: &mut Vec<u8>, number: u64) -> Result<(), Memory>
    ensures { OnOk result (text.new.items ≡ text.old.items ++ decimal number) }
{
    let digits = format!(in alloc; "{number}")?;
    text.extend_from_slice(digits.as_bytes())?;
    Ok(())
}

/// Appends an address in dotted decimal to a text.
#[tactic(auto, unfolding(std::specs::Net::Addr::IsIpv4OfBits))]
pub fn push_address(alloc: Global, text: &mut Vec<u8>, address: u32) -> Result<(), Memory>
    ensures { OnOk result (text.new.items ≡ text.old.items ++ address_text address) }
{
    let address = Ipv4Addr::from_bits(address);
    let written = format!(in alloc; "{address}")?;
    text.extend_from_slice(written.as_bytes())?;
    Ok(())
}

/// Appends a prefix, as `10.0.0.0/8`, to a text.
pub fn push_prefix(alloc: Global, text: &mut Vec<u8>, prefix: &Prefix) -> Result<(), Memory>
    ensures { OnOk result (text.new.items ≡ text.old.items ++ prefix_text prefix.now) }
{
    push_address(alloc, text, prefix.addr)?;
    text.push(b'/')?;
    push_number(alloc, text, u64::from(prefix.len))
}

/// A law: what is read as a prefix is its text, and the text of a prefix is read as it.
pub fn prefix_texts_are_exact()
    ensures { PrefixTextsAreExact }
{}
