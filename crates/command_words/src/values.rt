//! The values of words: prefixes, numbers, the numbers of links and the names of routers. Each
//! reader says what is wrong with a word that it refuses.
ghost use Rattle.arc_base.specs.NameForms.{is_name};
ghost use Rattle.arc_base.specs.PrefixText.{prefix_of};
ghost use Rattle.std.specs.List.{list_all};
ghost use Rattle.std.specs.Prelude.{◌≡◌, ◌≤◌, ◌<◌, ◌^◌, IfOk, MatchResult, None, Some};
ghost use Rattle.std.specs.Result.{result_ok};
ghost use Rattle.command_words.specs.Values.{comma_words, link_number, link_numbers, number_within};
ghost use Rattle.command_words.specs.Values.{prefix_fault, router_names};

use arc_base::limits::ROUTER_LIMIT;
use arc_base::{
    List, Memory, Name, Prefix, cut_at, is_name, natural, read_address, read_number, read_prefix,
};
use std::alloc::Global;

/// The highest number of a link.
pub const LAST_LINK: u64 = 4_294_967_295;

/// What is wrong with a word that is to be a value.
#[derive(Clone, Copy, Debug, PartialEq, Eq)]
pub enum Fault {
    /// There is none.
    Missing,
    /// It is not an address and a length.
    NotPrefix,
    /// It is this address and this length, and the address has bits past the length.
    PastBits(u32, u64),
    /// It is not a number of at most 10 digits from the first to the second of these.
    NotNumber(u64, u64),
    /// It is not numbers from 1 to `LAST_LINK`, of at most 10 digits each, joined by commas.
    NotLinks,
    /// It is not at most `ROUTER_LIMIT` names joined by commas.
    NotRouters,
}

/// What is wrong with a word that is no prefix.
fn prefix_fault(word: &[u8]) -> Fault
    ensures { result ≡ prefix_fault word.now }
{
    let Some((address, length)) = cut_at(word, b'/') else {
        return Fault::NotPrefix;
    };
    let Some(address) = read_address(address) else {
        return Fault::NotPrefix;
    };
    let Some(length) = read_number(length) else {
        return Fault::NotPrefix;
    };
    if length > 32 {
        Fault::NotPrefix
    } else {
        Fault::PastBits(address, length)
    }
}

/// A prefix.
pub fn prefix(word: &[u8]) -> Result<Prefix, Fault>
    ensures { MatchResult result (λ prefix. prefix_of word.now ≡ Some prefix)
        (λ fault. (prefix_of word.now ≡ None) × (fault ≡ prefix_fault word.now)) }
{
    match read_prefix(word) {
        Some(prefix) => Ok(prefix),
        None => Err(prefix_fault(word)),
    }
}

/// A number of 1 to 10 digits in a range.
pub fn number(word: &[u8], least: u64, most: u64) -> Result<u64, Fault>
    requires { most < 2 ^ 63 }
    ensures read { MatchResult result (λ number. number_within least most word.now ≡ Some number)
        (λ fault. (number_within least most word.now ≡ None)
        × (fault ≡ Fault.NotNumber least most)) }
    ensures most { IfOk result (λ number. number ≤ most) }
{
    match natural(word, most) {
        Some(number) if word.len() <= 10 && number >= least => Ok(number),
        _ => Err(Fault::NotNumber(least, most)),
    }
}

/// The number of a link.
fn link_number(word: &[u8]) -> Option<u32>
    ensures { result ≡ link_number word.now }
{
    match number(word, 1, LAST_LINK) {
        Ok(number) => Some(number as u32),
        Err(_) => None,
    }
}

/// The numbers of links that commas join.
pub fn links(alloc: Global, text: &[u8]) -> Result<Result<List<u32>, Fault>, Memory>
    ensures { IfOk result (λ links. result_ok links ≡ link_numbers text.now) }
{
    let mut numbers = Vec::new(alloc);
    let mut rest = text;
    while let Some((word, after)) = cut_at(rest, b',') {
        match link_number(word) {
            Some(number) => numbers.push(number)?,
            None => return Ok(Err(Fault::NotLinks)),
        }
        rest = after;
    }
    match link_number(rest) {
        Some(number) => numbers.push(number)?,
        None => return Ok(Err(Fault::NotLinks)),
    }
    Ok(Ok(List::of(numbers)?))
}

/// The words that commas join.
fn comma_words(alloc: Global, text: &[u8]) -> Result<List<Name>, Memory>
    ensures { IfOk result (λ words. words ≡ comma_words text.now) }
{
    let mut words = Vec::new(alloc);
    let mut rest = text;
    while let Some((word, after)) = cut_at(rest, b',') {
        words.push(Name::make(alloc, word)?)?;
        rest = after;
    }
    words.push(Name::make(alloc, rest)?)?;
    Ok(List::of(words)?)
}

fn are_router_names(words: &[Name]) -> bool
    ensures { result ≡ list_all is_name words.now }
{
    words.iter().all(|word| is_name(word.bytes()))
}

/// The names of routers that commas join, at most `ROUTER_LIMIT`.
pub fn routers(alloc: Global, text: &[u8]) -> Result<Result<List<Name>, Fault>, Memory>
    ensures { IfOk result (λ names. result_ok names ≡ router_names text.now) }
{
    let words = comma_words(alloc, text)?;
    if u64::from(words.len()) > ROUTER_LIMIT {
        return Ok(Err(Fault::NotRouters));
    }
    if are_router_names(words.slice()) {
        Ok(Ok(words))
    } else {
        Ok(Err(Fault::NotRouters))
    }
}
