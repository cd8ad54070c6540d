//! The texts of certificates.
ghost use Rattle.edit_list.specs.Prices.{chosen_of};
ghost use Rattle.policy_report.specs.Certificates.{claim_line, shown_lines, log_lines};
ghost use Rattle.policy_report.specs.Certificates.{certificate_text, budget_text, IsWholeClaim};
ghost use Rattle.policy_report.specs.Edits.{edit_lines};
ghost use Rattle.std.specs.Prelude.{◌≡◌, ◌++◌, ◌∷◌, [], length, IfOk, OnOk};

use crate::edits::push_edit;
use crate::reports::push_blocks;
use crate::words::push_count;
use arc_base::{List, Memory};
use edit_list::{Claim, Edit};
use net_model::{Document, Network};
use proof_log::Log;
use std::alloc::Global;

/// The line of the answer.
fn push_claim(alloc: Global, text: &mut Vec<u8>, claim: &Claim) -> Result<(), Memory>
    ensures { OnOk result (text.new.items ≡ text.old.items ++ claim_line claim.now) }
{
    match claim {
        Claim::Repaired { price, bound, .. } => {
            text.extend_from_slice(b"answer repaired")?;
            push_count(alloc, text, u64::from(*price))?;
            push_count(alloc, text, u64::from(*bound))?;
        }
        Claim::NoRepair { bound } => {
            text.extend_from_slice(b"answer none")?;
            push_count(alloc, text, u64::from(*bound))?;
        }
    }
    text.push(b'\n')?;
    Ok(())
}

/// The lines of the edits that are chosen.
fn push_chosen(
    alloc: Global,
    text: &mut Vec<u8>,
    net: &Network,
    edits: &[Edit],
    chosen: &[bool],
) -> Result<(), Memory>
    requires { length chosen.now ≡ length edits.now }
    ensures { OnOk result (text.new.items
        ≡ text.old.items ++ edit_lines net.now (chosen_of edits.now chosen.now)) }
{
    for (place, edit) in edits.iter().enumerate() {
        push_edit_line(alloc, text, net, edit, chosen[place])?;
    }
    Ok(())
}

/// The line of an edit, if it is chosen.
fn push_edit_line(
    alloc: Global,
    text: &mut Vec<u8>,
    net: &Network,
    edit: &Edit,
    is_chosen: bool,
) -> Result<(), Memory>
    ensures { OnOk result (text.new.items
        ≡ text.old.items ++ edit_lines net.now (chosen_of (edit.now ∷ []) (is_chosen ∷ []))) }
{
    if !is_chosen {
        return Ok(());
    }
    push_edit(alloc, text, net, edit)?;
    text.push(b'\n')?;
    Ok(())
}

/// The lines of the edits that are chosen, in the order of the list, each with a line feed behind
/// it.
pub fn edit_lines(
    alloc: Global,
    net: &Network,
    edits: &List<Edit>,
    chosen: &[bool],
) -> Result<Vec<u8>, Memory>
    requires { length chosen.now ≡ length edits.now }
    ensures { IfOk result (λ text.
        text.items ≡ edit_lines net.now (chosen_of edits.now chosen.now)) }
{
    let mut text = Vec::new(alloc);
    push_chosen(alloc, &mut text, net, edits.slice(), chosen)?;
    Ok(text)
}

/// What a repair shows.
fn push_shown(
    alloc: Global,
    text: &mut Vec<u8>,
    net: &Network,
    doc: &Document,
    edits: &List<Edit>,
    claim: &Claim,
) -> Result<(), Memory>
    requires { IsWholeClaim doc.now edits.now claim.now }
    ensures { OnOk result (text.new.items
        ≡ text.old.items ++ shown_lines net.now doc.now edits.now claim.now) }
{
    match claim {
        Claim::Repaired {
            chosen,
            verdicts,
            ..
        } => {
            push_chosen(alloc, text, net, edits.slice(), chosen.slice())?;
            push_blocks(alloc, text, net, doc.policies.slice(), verdicts.slice())
        }
        Claim::NoRepair { .. } => Ok(()),
    }
}

/// The proof log between its two lines.
fn push_log(alloc: Global, text: &mut Vec<u8>, log: &Log) -> Result<(), Memory>
    ensures { OnOk result (text.new.items ≡ text.old.items ++ log_lines log.now) }
{
    text.extend_from_slice(b"log\n")?;
    let steps = proof_log::text(alloc, log)?;
    text.extend_from_slice(steps.as_slice())?;
    text.extend_from_slice(b"end\n")?;
    Ok(())
}

/// The certificate of a claim: for a repair its edits in the order of the list, and a block with
/// the witness of each policy in the network after them, then the proof log that shows that nothing
/// cheaper is enough. Each line ends in a line feed. The routers' names and the links are the same
/// before the edits and after them.
pub fn certificate(
    alloc: Global,
    net: &Network,
    doc: &Document,
    edits: &List<Edit>,
    claim: &Claim,
    log: &Log,
) -> Result<Vec<u8>, Memory>
    requires { IsWholeClaim doc.now edits.now claim.now }
    ensures { IfOk result (λ text.
        text.items ≡ certificate_text net.now doc.now edits.now claim.now log.now) }
{
    let mut text = Vec::new(alloc);
    text.extend_from_slice(b"arc-repair 1\n")?;
    push_claim(alloc, &mut text, claim)?;
    push_shown(alloc, &mut text, net, doc, edits, claim)?;
    push_log(alloc, &mut text, log)?;
    Ok(text)
}

/// What is written if the search used up its budget of learnt clauses, within a bound on the price.
/// It claims nothing, and its log shows the work that was done.
pub fn budget(alloc: Global, limit: u64, bound: u32, log: &Log) -> Result<Vec<u8>, Memory>
    ensures { IfOk result (λ text. text.items ≡ budget_text limit bound log.now) }
{
    let mut text = Vec::new(alloc);
    text.extend_from_slice(b"arc-repair 1\nanswer budget")?;
    push_count(alloc, &mut text, limit)?;
    push_count(alloc, &mut text, u64::from(bound))?;
    text.push(b'\n')?;
    push_log(alloc, &mut text, log)?;
    Ok(text)
}
