//! The command `check DOC CERT`.
ghost use Rattle.check_commands.specs.RepairChecks.{IsAnyChecked, IsAnyRefusal, IsRepairJudged};
ghost use Rattle.check_commands.specs.RepairChecks.{IsTextRefusal};
ghost use Rattle.net_doc.specs.Documents.{IsWellFormed};
ghost use Rattle.run_files.specs.Answers.{Answers, Gives, IsJudging, OnlyReads};
ghost use Rattle.run_files.specs.Limits.{least_limit, proof_limit};
ghost use Rattle.run_files.specs.Refusals.{bytes_at, read_refusal};
ghost use Rattle.run_inputs.specs.Inputs.{HoldsDocument};
ghost use Rattle.std.specs.Prelude.{◌≡◌, None, IfOk, IfSome};

use crate::first_reading::begins_repair;
use crate::repair_lines::judge_repair;
use crate::report_lines::{check_lines, judgement_of};
use arc_base::Name;
use arc_base::limits::PROOF_LIMIT;
use arc_outside::Store;
use net_model::Document;
use run_files::{Done, Limits, Stop, told};
use run_inputs::{read_document, read_sources};
use std::alloc::Global;

/// Judges the certificate of a repair from the document, the router files and its own lines alone.
fn check_certificate<S: Store>(
    alloc: Global,
    document: &Name,
    doc: &Document,
    certificate: &Name,
    store: &mut S,
) -> Result<Done, Stop>
    requires { IsWellFormed doc.now }
    ensures told { IfSome (S.held store.old) (λ files. HoldsDocument document.now files doc.now
        → read_refusal proof_limit files certificate.now ≡ None
        → Gives (IsTextRefusal document.now (bytes_at files certificate.now) files)
        (IsRepairJudged document.now (bytes_at files certificate.now) files) result) }
    ensures own { IfOk result IsJudging }
    ensures reads { OnlyReads least_limit S.held S.faults S.absences S.taken
        store.old store.new result }
{
    let sources = read_sources(alloc, document, doc, &[], Limits::Editing, store)?;
    let outcome = judge_repair(alloc, document, &sources.built.net, doc, certificate, store)?;
    let done = told(alloc, judgement_of(outcome))?;
    Ok(done)
}

/// Judges a certificate from the document, the router files and its own text alone. One that begins
/// as that of a repair is judged as such, any other as a report. It is read twice, each time line
/// by line: for its size and its first line, and, after the router files, to be judged.
pub fn check<S: Store>(
    alloc: Global,
    document: &Name,
    certificate: &Name,
    store: &mut S,
) -> Result<Done, Stop>
    ensures answer { Answers IsJudging (IsAnyRefusal document.now certificate.now)
        (IsAnyChecked document.now certificate.now) (S.held store.old) result }
    ensures reads { OnlyReads least_limit S.held S.faults S.absences S.taken
        store.old store.new result }
{
    let doc = read_document(alloc, document, store)?;
    if begins_repair(alloc, certificate, PROOF_LIMIT, store)? {
        check_certificate(alloc, document, &doc, certificate, store)
    } else {
        check_lines(alloc, document, doc, certificate, store)
    }
}
