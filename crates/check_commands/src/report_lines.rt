//! The second reading of a report, which is judged line by line.
ghost use Rattle.check_commands.specs.Readings.{JudgesReport};
ghost use Rattle.check_commands.specs.ReportChecks.{judgement_of, IsChecked, RefusesInput};
ghost use Rattle.net_doc.specs.Documents.{IsWellFormed};
ghost use Rattle.net_model.specs.Forwarding.{HasEnds};
ghost use Rattle.net_model.specs.Packets.{subject};
ghost use Rattle.net_model.specs.Validity.{IsValid};
ghost use Rattle.run_files.specs.Answers.{Gives, IsJudging, OnlyReads};
ghost use Rattle.run_files.specs.Limits.{least_limit, proof_limit};
ghost use Rattle.run_files.specs.Refusals.{read_refusal};
ghost use Rattle.run_inputs.specs.Inputs.{HoldsDocument};
ghost use Rattle.std.specs.Prelude.{◌≡◌, ◌<◌, ◌≤◌, ◌^◌, length, All, None, IfOk, IfSome};

use arc_base::limits::PROOF_LIMIT;
use arc_base::{Memory, Name};
use arc_outside::Store;
use net_model::{Document, Network};
use report_check::laws::reports_are_accepted;
use report_check::{Outcome, ReportJudge};
use run_files::{Done, Judgement, Limits, LineJudge, Stop, judge_lines, told};
use run_inputs::{count_classes, read_files};
use std::alloc::Global;
use std::ops::ControlFlow;

/// The judgement that `check` prints for an outcome.
pub fn judgement_of(outcome: Outcome) -> Judgement
    ensures { result ≡ judgement_of outcome }
{
    match outcome {
        Outcome::Accepted => Judgement::Accepted,
        Outcome::Rejected(fault) => Judgement::Rejected(fault.line, fault.kind),
    }
}

/// The judge of a report over one network and document.
#[derive(Drop)]
struct ReportLines<'a> {
    net: &'a Network,
    doc: &'a Document,
    judge: ReportJudge,
}

impl<'a> LineJudge for ReportLines<'a> {
    ghost use Rattle.net_model.specs.Forwarding.{HasEnds};
    ghost use Rattle.net_model.specs.Packets.{subject};
    ghost use Rattle.net_model.specs.Validity.{IsValid};
    ghost use Rattle.report_check.specs.LineByLine.{HasComeTo, IsJudgedTo};
    ghost use Rattle.std.specs.Prelude.{◌-◌, ◌^◌, ℕ, All, List};

    type Outcome = Outcome;

    ghost room = { λ lines. 2 ^ 64 - 1 - lines.judge.number };

    ghost can_go_on = { λ lines. IsValid lines.net.now ×
        All (λ policy. HasEnds lines.net.now (subject policy)) lines.doc.now.policies };

    ghost leads_to = { λ lines ls o. (text : List ℕ) →
        HasComeTo lines.net.now lines.doc.now text ls lines.judge →
        IsJudgedTo lines.net.now lines.doc.now text o };

    ghost refuses = { λ _ _ _. ⊥ };

    fn line(
        self,
        _alloc: Global,
        line: &[u8],
    ) -> Result<ControlFlow<Outcome, ReportLines<'a>>, Stop> {
        let net = self.net;
        let doc = self.doc;
        match self.judge.line(net, doc, line) {
            Ok(ControlFlow::Continue(judge)) => {
                Ok(ControlFlow::Continue(ReportLines { net, doc, judge }))
            }
            Ok(ControlFlow::Break(outcome)) => Ok(ControlFlow::Break(outcome)),
            Err(Memory) => Err(Stop::Memory),
        }
    }

    fn end(self, _alloc: Global) -> Result<Outcome, Stop> {
        Ok(self.judge.end())
    }
}

/// Judges the lines of a certificate one by one as those of a report over the network, or refuses
/// its file.
fn judge_report<S: Store>(
    alloc: Global,
    net: &Network,
    doc: &Document,
    certificate: &Name,
    limit: u64,
    store: &mut S,
) -> Result<Outcome, Stop>
    requires valid { IsValid net.now }
    requires ends { All (λ policy. HasEnds net.now (subject policy)) doc.now.policies }
    requires few { length doc.now.policies ≤ 4294967295 }
    requires limit { limit < 2 ^ 63 }
    ensures told { IfSome (S.held store.old) (λ files.
        JudgesReport limit net.now doc.now certificate.now files result) }
    ensures reads { OnlyReads limit S.held S.faults S.absences S.taken store.old store.new result }
{
    reports_are_accepted();
    let judge = ReportJudge::make(alloc);
    let lines = ReportLines { net, doc, judge };
    judge_lines(alloc, store, certificate, limit, lines)
}

/// Judges the certificate in a file as a report, from its document, the router files and its own
/// lines alone. It is read after the router files, line by line; the first reading has shown that
/// its file is not refused.
pub fn check_lines<S: Store>(
    alloc: Global,
    document: &Name,
    doc: Document,
    certificate: &Name,
    store: &mut S,
) -> Result<Done, Stop>
    requires { IsWellFormed doc }
    ensures told { IfSome (S.held store.old) (λ files. HoldsDocument document.now files doc
        → read_refusal proof_limit files certificate.now ≡ None
        → Gives (RefusesInput document.now files)
        (IsChecked document.now certificate.now files) result) }
    ensures own { IfOk result IsJudging }
    ensures reads { OnlyReads least_limit S.held S.faults S.absences S.taken
        store.old store.new result }
{
    let input = read_files(alloc, document, doc, &[], Limits::Judging, store)?;
    count_classes(alloc, document, &input.net, &input.doc.policies)?;
    let outcome = judge_report(
        alloc,
        &input.net,
        &input.doc,
        certificate,
        PROOF_LIMIT,
        store,
    )?;
    let done = told(alloc, judgement_of(outcome))?;
    Ok(done)
}
