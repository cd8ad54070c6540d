//! Why words match no command, in a sentence: what the reader of the words finds wrong.

use crate::showing::Shown;
use arc_base::Name;
use arc_base::limits::{NAME_LIMIT, ROUTER_LIMIT};
use command_words::{CommandForm, Fault, LAST_LINK, WrongWord, WrongWords, explain_words};
use std::alloc::{AllocError, Global};
use std::net::Ipv4Addr;

/// The first address of the network of an address and a prefix length.
fn network(address: u32, length: u64) -> Ipv4Addr {
    let past = 32u64.saturating_sub(length).min(32) as u32;
    let mask = u32::MAX.checked_shl(past).unwrap_or(0);
    Ipv4Addr::from_bits(address & mask)
}

/// What the value has to be, or what is wrong with the word.
fn wanted(alloc: Global, fault: Fault) -> Result<String, AllocError> {
    match fault {
        Fault::Missing => format!(in alloc; "is missing"),
        Fault::NotPrefix => format!(in alloc; "is a prefix such as 10.1.0.0/24"),
        Fault::PastBits(address, length) => {
            let network = network(address, length);
            format!(in alloc; "has bits past its length; its network is {network}/{length}")
        }
        Fault::NotNumber(least, most) => {
            format!(in alloc; "is a number from {least} to {most} of at most 10 digits")
        }
        Fault::NotLinks => {
            let range = format_args!("from 1 to {LAST_LINK} of at most 10 digits");
            format!(in alloc; "is numbers {range}, joined by commas")
        }
        Fault::NotRouters => {
            let each = format_args!("each of 1 to {NAME_LIMIT} letters, digits, -, _ and .");
            format!(in alloc; "is 1 to {ROUTER_LIMIT} names joined by commas, {each}")
        }
    }
}

/// The sentence about a wrong value.
fn value_sentence(
    alloc: Global,
    form: CommandForm,
    wrong: &WrongWord,
) -> Result<String, AllocError> {
    let WrongWord { name, word, fault } = wrong;
    let hyphens = if form.places.contains(name) { "" } else { "--" };
    let (word, why) = (Shown(word.bytes()), wanted(alloc, *fault)?);
    format!(in alloc; "wrong word: {word} ({hyphens}{name} {why})")
}

/// What `clap` says of words that do not have the form of their command, without its usage, in one
/// line.
fn form_sentence(alloc: Global, said: &str) -> Result<String, AllocError> {
    let said = said.strip_prefix("error: ").unwrap_or(said);
    let mut sentence = String::new(alloc);
    for line in said.lines() {
        if line.starts_with("Usage:") {
            break;
        }
        if line.trim().starts_with("tip:") {
            sentence.push_str(";")?;
        }
        if !sentence.is_empty() && !line.is_empty() {
            sentence.push_str(" ")?;
        }
        sentence.push_str(line.trim())?;
    }
    Ok(sentence)
}

/// The sentence about words that match no command.
fn sentence(alloc: Global, form: CommandForm, wrong: &WrongWords) -> Result<String, AllocError> {
    match wrong {
        WrongWords::NotText => format!(in alloc; "a word is not UTF-8"),
        WrongWords::NoCommand => format!(in alloc; "no command is named so"),
        WrongWords::Form(error) => form_sentence(alloc, error.to_string(alloc)?.as_str()),
        WrongWords::Value(wrong) => value_sentence(alloc, form, wrong),
    }
}

/// Why words that begin with the name of this command do not match its form. `None` if they match
/// it, or if they are the name alone or ask for help, so that only the form is wanted.
pub fn words_fault(alloc: Global, form: CommandForm, words: &[Name]) -> Option<String> {
    let asks_for_help = |word: &Name| matches!(word.bytes(), b"--help" | b"-h");
    if words.len() < 2 || words.iter().any(asks_for_help) {
        return None;
    }
    match explain_words(alloc, words) {
        Ok(Err(wrong)) => sentence(alloc, form, &wrong).ok(),
        _ => None,
    }
}
