//! What `repair` prints and writes for an answer.
ghost use Rattle.edit_list.specs.EditLists.{AreEdits};
ghost use Rattle.net_build.specs.Networks.{IsBuiltWithin};
ghost use Rattle.policy_report.specs.Certificates.{budget_text, IsWholeClaim};
ghost use Rattle.repair_commands.specs.Repairs.{repair_lines, Writes, WritesAnswer, WritesClaim};
ghost use Rattle.repair_commands.specs.Repairs.{WritesRepair};
ghost use Rattle.repair_commands.specs.Steps.{IsWholeAnswer};
ghost use Rattle.std.specs.Prelude.{◌≡◌, ◌<◌, ◌≤◌, ◌-◌, ◌^◌, ◌++◌, [], length, All, IfOk, codes};
ghost use Rattle.std.specs.Prelude.{decimal};

use arc_base::limits::{
    EDIT_LIMIT, EDITED_ENTRY_LIMIT, EDITED_FILE_LIMIT, PROOF_LIMIT, ROUTER_LIMIT,
};
use arc_base::{List, Memory, Name};
use arc_repair::Answer;
use command_words::RepairWords;
use edit_list::{Claim, Edit};
use file_copies::{changes, push_wrote};
use net_model::{Document, Network};
use policy_report::{budget, certificate, edit_lines};
use proof_log::Log;
use run_files::Done;
use run_inputs::Sources;
use std::alloc::Global;

/// The answer that prints these lines and writes these files, and then the certificate. `Memory`
/// also if the certificate is longer than `PROOF_LIMIT` bytes.
fn done_with(
    alloc: Global,
    words: &RepairWords,
    told: Vec<u8>,
    changed: List<(Name, Name)>,
    certificate: Vec<u8>,
    status: u8,
) -> Result<Done, Memory>
    requires { length changed < 2 ^ 32 - 1 }
    ensures { IfOk result (Writes words.now told.items changed certificate.items status) }
{
    if certificate.len() as u64 > PROOF_LIMIT {
        return Err(Memory);
    }
    let name = Name::make(alloc, words.proof.bytes())?;
    let mut writes = changed;
    writes.push((name, Name::of(certificate)))?;
    let mut text = told;
    push_wrote(&mut text, writes.slice())?;
    Ok(Done {
        text: Name::of(text),
        writes,
        status,
    })
}

/// A line of a word and a number.
fn number_line(alloc: Global, word: &[u8], number: u64) -> Result<Vec<u8>, Memory>
    ensures { IfOk result (λ text. text.items ≡ word.now ++ decimal number ++ codes "\n") }
{
    let mut text = Vec::from_slice(alloc, word)?;
    let digits = number.to_string(alloc)?;
    text.extend_from_slice(digits.as_bytes())?;
    text.extend_from_slice(b"\n")?;
    Ok(text)
}

/// The first lines of a repair: its price and its edits.
fn repair_lines(
    alloc: Global,
    net: &Network,
    list: &List<Edit>,
    price: u32,
    chosen: &[bool],
) -> Result<Vec<u8>, Memory>
    requires { length chosen.now ≡ length list.now }
    ensures { IfOk result (λ text. text.items ≡ repair_lines net.now list.now price chosen.now) }
{
    let mut text = number_line(alloc, b"repaired ", u64::from(price))?;
    let edits = edit_lines(alloc, net, list, chosen)?;
    text.extend_from_slice(edits.as_slice())?;
    Ok(text)
}

/// A repair of this price by the chosen edits, with its certificate.
fn repair_done(
    alloc: Global,
    words: &RepairWords,
    doc: &Document,
    sources: &Sources,
    list: &List<Edit>,
    price: u32,
    chosen: &[bool],
    certificate: Vec<u8>,
) -> Result<Done, Memory>
    requires built { IsBuiltWithin [] EDITED_ENTRY_LIMIT doc.now
        sources.now.files sources.now.built }
    requires count { length sources.now.files ≡ length doc.now.routers }
    requires bytes { All (λ text. length text ≤ EDITED_FILE_LIMIT) sources.now.files }
    requires routers { length doc.now.routers ≤ ROUTER_LIMIT }
    requires edits { AreEdits sources.now.built.net doc.now list.now }
    requires few { length list.now ≤ EDIT_LIMIT }
    requires flags { length chosen.now ≡ length list.now }
    ensures { IfOk result (WritesRepair words.now doc.now sources.now.built sources.now.files
        list.now price chosen.now certificate.items) }
{
    let told = repair_lines(alloc, &sources.built.net, list, price, chosen)?;
    let changed = changes(alloc, &words.suffix, doc, sources, list, chosen)?;
    done_with(alloc, words, told, changed, certificate, 0)
}

/// A claim, with its certificate.
fn claim_done(
    alloc: Global,
    words: &RepairWords,
    doc: &Document,
    sources: &Sources,
    list: &List<Edit>,
    claim: &Claim,
    log: &Log,
) -> Result<Done, Memory>
    requires built { IsBuiltWithin [] EDITED_ENTRY_LIMIT doc.now
        sources.now.files sources.now.built }
    requires count { length sources.now.files ≡ length doc.now.routers }
    requires bytes { All (λ text. length text ≤ EDITED_FILE_LIMIT) sources.now.files }
    requires routers { length doc.now.routers ≤ ROUTER_LIMIT }
    requires edits { AreEdits sources.now.built.net doc.now list.now }
    requires few { length list.now ≤ EDIT_LIMIT }
    requires whole { IsWholeClaim doc.now list.now claim.now }
    ensures { IfOk result (WritesClaim words.now doc.now sources.now.built sources.now.files
        list.now claim.now log.now) }
{
    let proof = certificate(alloc, &sources.built.net, doc, list, claim, log)?;
    match claim {
        Claim::Repaired { price, chosen, .. } => {
            repair_done(
                alloc,
                words,
                doc,
                sources,
                list,
                *price,
                chosen.slice(),
                proof,
            )
        }
        Claim::NoRepair { bound } => {
            let told = number_line(alloc, b"none ", u64::from(*bound))?;
            done_with(alloc, words, told, List::make(alloc), proof, 2)
        }
    }
}

/// The answer that the conflicts are used up, with a certificate of the log so far.
fn budget_done(alloc: Global, words: &RepairWords, log: &Log) -> Result<Done, Memory>
    ensures { IfOk result
        (Writes words.now (codes "budget " ++ decimal words.now.conflicts ++ codes "\n") []
        (budget_text words.now.conflicts words.now.bound log.now) 3) }
{
    let told = number_line(alloc, b"budget ", words.conflicts)?;
    let proof = budget(alloc, words.conflicts, words.bound, log)?;
    done_with(alloc, words, told, List::make(alloc), proof, 3)
}

/// The answer with what it writes: the changed files and a certificate for a repair, a certificate
/// alone for any other answer.
pub fn answer_done(
    alloc: Global,
    words: &RepairWords,
    doc: &Document,
    sources: &Sources,
    list: &List<Edit>,
    answer: &Answer,
) -> Result<Done, Memory>
    requires built { IsBuiltWithin [] EDITED_ENTRY_LIMIT doc.now
        sources.now.files sources.now.built }
    requires count { length sources.now.files ≡ length doc.now.routers }
    requires bytes { All (λ text. length text ≤ EDITED_FILE_LIMIT) sources.now.files }
    requires routers { length doc.now.routers ≤ ROUTER_LIMIT }
    requires edits { AreEdits sources.now.built.net doc.now list.now }
    requires few { length list.now ≤ EDIT_LIMIT }
    requires whole { IsWholeAnswer doc.now list.now answer.now }
    ensures { IfOk result
        (WritesAnswer words.now doc.now sources.now.built sources.now.files list.now answer.now) }
{
    match answer {
        Answer::Done(claim, log) => claim_done(alloc, words, doc, sources, list, claim, log),
        Answer::Budget(log) => budget_done(alloc, words, log),
    }
}
