//! Prefixes as router files write them: an address, and how long the prefix is that holds it.
ghost use Rattle.ios_words.specs.Prefixes.{cleared, holding, whole};
ghost use Rattle.ios_words.specs.Values.{route_of, both, class_prefix};
ghost use Rattle.std.specs.Prelude.{◌≡◌, ◌-◌, ◌≤◌, IfSome};

use crate::numbers::{class_length, number_in};
use arc_base::{Prefix, cut_at, read_address};

/// The prefix of this length that holds an address.
pub(crate) fn holding(address: u32, len: u8) -> Prefix
    requires { len ≤ 32 }
    ensures { result ≡ holding address len }
{
    Prefix {
        addr: cleared(address, 32 - len),
        len,
    }
}

/// The prefix of all addresses.
pub fn whole() -> Prefix
    ensures { result ≡ whole }
{
    holding(0, 0)
}

/// An address with its last `rest` bits cleared.
fn cleared(address: u32, rest: u8) -> u32
    requires { rest ≤ 32 }
    ensures { result ≡ cleared rest address }
{
    let size = 1u64 << rest;
    (u64::from(address) / size * size) as u32
}

/// The prefix of a network whose first byte gives its length.
pub(crate) fn class_prefix(address: Option<u32>) -> Option<Prefix>
    ensures { result ≡ class_prefix address }
{
    let address = address?;
    Some(holding(address, class_length(address >> 24)?))
}

/// The address and the length that a word writes with a slash between them.
pub(crate) fn route_of(word: &[u8]) -> Option<(u32, u8)>
    ensures route { result ≡ route_of word.now }
    ensures few { IfSome result (λ route. route.1 ≤ 32) }
{
    match cut_at(word, b'/') {
        Some((address, len)) => both(read_address(address), number_in(len, 0, 32)),
        None => None,
    }
}

/// An address and a length, where both are there.
fn both(address: Option<u32>, len: Option<u32>) -> Option<(u32, u8)>
    requires { IfSome len (λ len. len ≤ 32) }
    ensures both { result ≡ both address len }
    ensures few { IfSome result (λ route. route.1 ≤ 32) }
{
    match (address, len) {
        (Some(address), Some(len)) => Some((address, len as u8)),
        _ => None,
    }
}
