//! The text of a recheck.
ghost use Rattle.arc_recheck.specs.Texts.{kept_word, rechecked_text, rechecked_texts, alone_line};
ghost use Rattle.arc_recheck.specs.Texts.{alone_lines, recheck_text};
ghost use Rattle.std.specs.Prelude.{◌≡◌, ◌++◌, length, Some, IfOk, OnOk};

use crate::rechecking::Rechecked;
use arc_base::{Link, List, Memory, push_number};
use net_model::{Network, Policy};
use policy_report::{
    count_lines, push_answer_words, push_count, push_links, push_witness, push_word,
};
use std::alloc::Global;

/// The text of a recheck: `arc-recheck 1`, for each policy its block with whether its verdict is
/// the old one, for each policy that has an answer the line of the links whose failure alone breaks
/// it, and `end`. Policies and links are counted from 1.
pub fn recheck_text(
    alloc: Global,
    net: &Network,
    policies: &List<Policy>,
    rechecked: &List<Rechecked>,
    alone: &List<Option<List<Link>>>,
) -> Result<Vec<u8>, Memory>
    requires { length rechecked.now ≡ length policies.now }
    ensures { IfOk result (λ text.
        text.items ≡ recheck_text net.now policies.now rechecked.now alone.now) }
{
    let mut text = Vec::new(alloc);
    text.extend_from_slice(b"arc-recheck 1\n")?;
    push_blocks(alloc, &mut text, net, policies.slice(), rechecked.slice())?;
    push_alone_lines(alloc, &mut text, alone.slice())?;
    text.extend_from_slice(b"end\n")?;
    Ok(text)
}

fn push_blocks(
    alloc: Global,
    text: &mut Vec<u8>,
    net: &Network,
    policies: &[Policy],
    rechecked: &[Rechecked],
) -> Result<(), Memory>
    requires { length rechecked.now ≡ length policies.now }
    ensures { OnOk result
        (text.new.items ≡ text.old.items ++ rechecked_texts 1 net.now policies.now rechecked.now) }
{
    for (place, policy) in policies.iter().enumerate() {
        push_rechecked(
            alloc,
            text,
            place as u64 + 1,
            net,
            policy,
            &rechecked[place],
        )?;
    }
    Ok(())
}

fn push_alone_lines(
    alloc: Global,
    text: &mut Vec<u8>,
    alone: &[Option<List<Link>>],
) -> Result<(), Memory>
    ensures { OnOk result (text.new.items ≡ text.old.items ++ alone_lines 1 alone.now) }
{
    for (place, found) in alone.iter().enumerate() {
        push_found(alloc, text, place as u64 + 1, found)?;
    }
    Ok(())
}

fn push_found(
    alloc: Global,
    text: &mut Vec<u8>,
    number: u64,
    found: &Option<List<Link>>,
) -> Result<(), Memory>
    ensures { OnOk result (text.new.items ≡ text.old.items ++ alone_line number found.now) }
{
    match found {
        Some(links) => push_alone(alloc, text, number, links),
        None => Ok(()),
    }
}

/// Adds the block of the policy with this number, counted from 1.
fn push_rechecked(
    alloc: Global,
    text: &mut Vec<u8>,
    number: u64,
    net: &Network,
    policy: &Policy,
    rechecked: &Rechecked,
) -> Result<(), Memory>
    ensures { OnOk result (text.new.items ≡ text.old.items ++
        rechecked_text number net.now policy.now rechecked.now) }
{
    push_number(alloc, text, number)?;
    push_answer_words(text, policy.kind, &rechecked.verdict)?;
    push_count(alloc, text, count_lines(&rechecked.verdict))?;
    push_word(text, kept_word(rechecked.kept))?;
    text.push(b'\n')?;
    push_witness(alloc, text, net, &rechecked.verdict)
}

/// Adds the line of the links that the policy with this number hangs on.
fn push_alone(
    alloc: Global,
    text: &mut Vec<u8>,
    number: u64,
    links: &List<Link>,
) -> Result<(), Memory>
    ensures { OnOk result (text.new.items ≡ text.old.items ++ alone_line number (Some links.now)) }
{
    text.extend_from_slice(b"alone")?;
    push_count(alloc, text, number)?;
    push_links(alloc, text, links.slice())?;
    text.push(b'\n')?;
    Ok(())
}

/// The word for whether a verdict is the old one.
fn kept_word(kept: bool) -> &'static [u8]
    ensures { result.now ≡ kept_word kept }
{
    if kept { b"kept" } else { b"new" }
}
