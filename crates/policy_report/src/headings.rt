//! The first line of a block: the policy's number, what it asks, the answer, and how many lines the
//! witness has.
ghost use Rattle.policy_report.specs.Readings.{asked_of, yes_of, block_of, heading_of};
ghost use Rattle.std.specs.Prelude.{◌≡◌, map};

use crate::drafts::{Asked, Block, Draft, Heading};
use crate::reading::count_of;
use arc_base::List;
use net_model::Verdict;
use std::alloc::Global;

/// What a word asks.
fn asked_of(word: &[u8]) -> Option<Asked>
    ensures { result ≡ asked_of word.now }
{
    if word == b"blocked".as_slice() {
        Some(Asked::Blocked)
    } else if word == b"through".as_slice() {
        Some(Asked::Through)
    } else if word == b"reach".as_slice() {
        Some(Asked::Reach)
    } else {
        None
    }
}

/// A yes: its sides or paths, `count` of them.
fn yes_of(alloc: Global, asked: Asked, count: u32) -> Block
    ensures { result ≡ yes_of asked count }
{
    match (asked, count) {
        (Asked::Reach, 0) => Block::Whole(Verdict::Paths(List::make(alloc))),
        (Asked::Reach, _) => Block::Open(Draft::Paths(count, List::make(alloc))),
        (_, 0) => Block::Whole(Verdict::Closed(List::make(alloc))),
        (_, _) => Block::Open(Draft::Sides(count, List::make(alloc))),
    }
}

/// What an answer with `count` lines begins, if what is asked has such an answer.
fn block_of(alloc: Global, asked: Asked, answer: &[u8], count: u32) -> Option<Block>
    ensures { result ≡ block_of asked answer.now count }
{
    if answer == b"yes".as_slice() {
        return Some(yes_of(alloc, asked, count));
    }
    let draft = if answer == b"no".as_slice() {
        match (asked, count) {
            (Asked::Reach, 1) => Draft::Denied,
            (Asked::Reach, 2) => Draft::Cut,
            (Asked::Reach, _) => return None,
            (_, 1) => Draft::Walk,
            (_, _) => return None,
        }
    } else if answer == b"refused".as_slice() {
        match (asked, count) {
            (Asked::Reach, 1) => Draft::Refused,
            (_, _) => return None,
        }
    } else {
        return None;
    };
    Some(Block::Open(draft))
}

/// `NUMBER KIND ANSWER COUNT`
pub(crate) fn heading_of(alloc: Global, words: &[&[u8]]) -> Option<Heading>
    ensures { result ≡ heading_of (map (λ word. word.now) words.now) }
{
    let [number, asked, answer, count] = words else {
        return None;
    };
    let number = count_of(number)?;
    let asked = asked_of(asked)?;
    let count = count_of(count)?;
    let block = block_of(alloc, asked, answer, count)?;
    Some(Heading {
        number,
        asked,
        block,
    })
}
