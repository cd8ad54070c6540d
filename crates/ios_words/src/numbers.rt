//! Numbers, masks and areas as router files write them.
ghost use Rattle.arc_base.specs.PrefixText.{number_of};
ghost use Rattle.ios_words.specs.Numbers.{is_from, number_in, mask_ones, length_from, mask_length};
ghost use Rattle.ios_words.specs.Numbers.{wildcard_length, area_of, class_length, list_kind};
ghost use Rattle.std.specs.Prelude.{◌≡◌, ◌-◌, ◌<◌, ◌≤◌, IfSome, IfOk};

use crate::kinds::Flaw;
use arc_base::{read_address, read_number};

/// The masks, by the number of their ones.
const MASKS: [u32; 33] = [
    0,
    0x8000_0000,
    0xC000_0000,
    0xE000_0000,
    0xF000_0000,
    0xF800_0000,
    0xFC00_0000,
    0xFE00_0000,
    0xFF00_0000,
    0xFF80_0000,
    0xFFC0_0000,
    0xFFE0_0000,
    0xFFF0_0000,
    0xFFF8_0000,
    0xFFFC_0000,
    0xFFFE_0000,
    0xFFFF_0000,
    0xFFFF_8000,
    0xFFFF_C000,
    0xFFFF_E000,
    0xFFFF_F000,
    0xFFFF_F800,
    0xFFFF_FC00,
    0xFFFF_FE00,
    0xFFFF_FF00,
    0xFFFF_FF80,
    0xFFFF_FFC0,
    0xFFFF_FFE0,
    0xFFFF_FFF0,
    0xFFFF_FFF8,
    0xFFFF_FFFC,
    0xFFFF_FFFE,
    0xFFFF_FFFF,
];

/// The number from `low` to `high` that a word writes.
pub(crate) fn number_in(word: &[u8], low: u32, high: u32) -> Option<u32>
    ensures number { result ≡ number_in low high word.now }
    ensures range { IfSome result (λ number. number ≤ high) }
{
    let number = read_number(word)?;
    if is_from(u64::from(low), u64::from(high), number) {
        Some(number as u32)
    } else {
        None
    }
}

/// Whether a number is from the first to the second.
pub(crate) fn is_from(low: u64, high: u64, number: u64) -> bool
    ensures { result ≡ is_from low high number }
{
    low <= number && number <= high
}

/// The number of ones of an address that is a mask.
#[tactic(auto, unfolding(crate::specs::Numbers::masks))]
fn mask_ones(address: u32) -> Option<usize>
    ensures ones { result ≡ mask_ones address }
    ensures few { IfSome result (λ ones. ones ≤ 32) }
{
    MASKS.iter().position(|mask| *mask == address)
}

/// A number of ones that is at least `least`; an address without one is no mask.
fn length_from(least: u8, ones: Option<usize>) -> Result<u8, Flaw>
    requires { IfSome ones (λ ones. ones ≤ 32) }
    ensures length { result ≡ length_from least ones }
    ensures few { IfOk result (λ length. length ≤ 32) }
{
    match ones {
        Some(ones) if usize::from(least) <= ones => Ok(ones as u8),
        Some(_) => Err(Flaw::Amiss),
        None => Err(Flaw::Scattered),
    }
}

/// The number of ones, at least `least`, of the mask that a word writes: ones and then zeros.
pub(crate) fn mask_length(word: &[u8], least: u8) -> Result<u8, Flaw>
    ensures length { result ≡ mask_length least word.now }
    ensures few { IfOk result (λ length. length ≤ 32) }
{
    match read_address(word) {
        Some(address) => length_from(least, mask_ones(address)),
        None => Err(Flaw::Amiss),
    }
}

/// The number of zeros of the wildcard that a word writes: zeros and then ones.
pub(crate) fn wildcard_length(word: &[u8]) -> Result<u8, Flaw>
    ensures length { result ≡ wildcard_length word.now }
    ensures few { IfOk result (λ length. length ≤ 32) }
{
    match read_address(word) {
        Some(address) => length_from(0, mask_ones(u32::MAX - address)),
        None => Err(Flaw::Amiss),
    }
}

/// The area that a word writes, as a number or as an address.
pub(crate) fn area_of(word: &[u8]) -> Option<u32>
    ensures { result ≡ area_of word.now }
{
    match number_in(word, 0, u32::MAX) {
        Some(area) => Some(area),
        None => read_address(word),
    }
}

/// The length of a network by the first byte of its address.
pub(crate) fn class_length(byte: u32) -> Option<u8>
    ensures length { result ≡ class_length byte }
    ensures few { IfSome result (λ length. length ≤ 32) }
{
    match byte {
        1..=127 => Some(8),
        128..=191 => Some(16),
        192..=223 => Some(24),
        _ => None,
    }
}

/// Whether the packet list of the number that a word writes is extended, where there may be one.
pub(crate) fn list_kind(word: &[u8]) -> Option<bool>
    ensures { result ≡ list_kind (number_of word.now) }
{
    match read_number(word)? {
        1..=99 | 1300..=1999 => Some(false),
        100..=199 | 2000..=2699 => Some(true),
        _ => None,
    }
}
