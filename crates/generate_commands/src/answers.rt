//! What `generate` prints and writes.
ghost use Rattle.file_copies.specs.Outputs.{wrote_lines};
ghost use Rattle.generate_commands.specs.Generates.{certificate_of, status_of};
ghost use Rattle.generate_commands.specs.Summaries.{answer_lines, made_line, tally_line};
ghost use Rattle.generate_commands.specs.Tallies.{tally_of};
ghost use Rattle.repair_commands.specs.Steps.{IsWholeAnswer};
ghost use Rattle.run_files.specs.Limits.{proof_limit};
ghost use Rattle.std.specs.Prelude.{◌≡◌, ◌∷◌, [], ◌++◌, ◌≤◌, length, IfOk, codes};

use crate::lines::{push_answer, push_made, push_tally};
use crate::tallies::{Tally, counted};
use arc_base::limits::{DEFAULT_CONFLICTS, DEFAULT_PRICE, MOST_GENERATED, PROOF_LIMIT};
use arc_base::{List, Memory, Name};
use arc_repair::Answer;
use command_words::GenerateWords;
use edit_list::{Claim, Edit};
use file_copies::push_wrote;
use net_model::{Document, Network, Verdict};
use policy_report::{budget, certificate};
use run_files::Done;
use std::alloc::Global;

/// The certificate of an answer: the one that `repair` writes.
fn certificate_of(
    alloc: Global,
    net: &Network,
    doc: &Document,
    list: &List<Edit>,
    answer: &Answer,
) -> Result<Vec<u8>, Memory>
    requires { IsWholeAnswer doc.now list.now answer.now }
    ensures { IfOk result (λ text.
        text.items ≡ certificate_of net.now doc.now list.now answer.now) }
{
    match answer {
        Answer::Done(claim, log) => certificate(alloc, net, doc, list, claim, log),
        Answer::Budget(log) => budget(alloc, DEFAULT_CONFLICTS, DEFAULT_PRICE, log),
    }
}

/// The status of an answer.
fn status_of(answer: &Answer) -> u8
    ensures { result ≡ status_of answer.now }
{
    match answer {
        Answer::Done(Claim::Repaired { .. }, _) => 0,
        Answer::Done(Claim::NoRepair { .. }, _) => 2,
        Answer::Budget(_) => 3,
    }
}

/// The lines before those of the written files.
fn summary(
    alloc: Global,
    words: &GenerateWords,
    tally: Tally,
    answer: &Answer,
) -> Result<Vec<u8>, Memory>
    requires { words.now.number ≤ MOST_GENERATED }
    ensures { IfOk result (λ text. text.items ≡ made_line words.now.number ++
        (tally_line (codes "verdicts") tally ++ answer_lines answer.now)) }
{
    let mut text = Vec::new(alloc);
    push_made(alloc, &mut text, words.number)?;
    push_tally(alloc, &mut text, b"verdicts", tally)?;
    push_answer(alloc, &mut text, answer)?;
    Ok(text)
}

/// The printed text and the certificate of an answer. `Memory` also if the certificate is longer
/// than `PROOF_LIMIT` bytes.
pub fn answer_done(
    alloc: Global,
    words: &GenerateWords,
    net: &Network,
    doc: &Document,
    verdicts: &List<Verdict>,
    list: &List<Edit>,
    answer: &Answer,
) -> Result<Done, Memory>
    requires number { words.now.number ≤ MOST_GENERATED }
    requires whole { IsWholeAnswer doc.now list.now answer.now }
    ensures writes { IfOk result (λ done.
        done.writes ≡ (words.now.proof, certificate_of net.now doc.now list.now answer.now) ∷ []) }
    ensures short { IfOk result (λ done.
        length (certificate_of net.now doc.now list.now answer.now) ≤ proof_limit) }
    ensures text { IfOk result (λ done. done.text ≡ (made_line words.now.number ++
        (tally_line (codes "verdicts") (tally_of verdicts.now) ++ answer_lines answer.now)) ++
        wrote_lines done.writes) }
    ensures status { IfOk result (λ done. done.status ≡ status_of answer.now) }
{
    let certificate = certificate_of(alloc, net, doc, list, answer)?;
    if certificate.len() as u64 > PROOF_LIMIT {
        return Err(Memory);
    }
    let name = Name::make(alloc, words.proof.bytes())?;
    let mut writes = List::make(alloc);
    writes.push((name, Name::of(certificate)))?;
    let mut text = summary(alloc, words, counted(verdicts.slice()), answer)?;
    push_wrote(&mut text, writes.slice())?;
    Ok(Done {
        text: Name::of(text),
        writes,
        status: status_of(answer),
    })
}
