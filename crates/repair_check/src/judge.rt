//! Judging a certificate line by line.
ghost use Rattle.arc_base.specs.TextLines.{lines};
ghost use Rattle.policy_report.specs.Steps.{standing, step};
ghost use Rattle.repair_check.specs.Certifies.{IsCountFault, text_answers};
ghost use Rattle.repair_check.specs.Instances.{IsInstance, IsJudgeable};
ghost use Rattle.repair_check.specs.Outcomes.{rejected};
ghost use Rattle.repair_check.specs.Phases.{IsFaultAt, IsGoing, IsPhaseOutcome, LeadsTo};
ghost use Rattle.std.specs.ControlFlow.{continue_value, MatchControlFlow};
ghost use Rattle.std.specs.Prelude.{◌≡◌, ◌+◌, ◌<◌, ◌∷◌, ℕ, [], List as Items, IfOk, IfErr, IfSome};

use crate::beginning::{end_edits, judge_answer, judge_head};
use crate::judging::{judge_block, judge_edits, judge_log, judge_ready};
use crate::phases::{Next, Phase};
use arc_base::{CertKind, List, Memory};
use edit_list::{Edit, EditFault};
use net_model::{Document, Network};
use policy_report::{CertFault, Got, Reader};
use report_check::Outcome;
use std::alloc::Global;
use std::ops::ControlFlow;

fn rejected(number: u64, kind: CertKind) -> Outcome
    ensures { result ≡ rejected number kind }
{
    Outcome::Rejected(CertFault { line: number, kind })
}

/// Judges the line of this number.
fn judge_line(
    alloc: Global,
    net: &Network,
    doc: &Document,
    list: &List<Edit>,
    phase: Phase,
    number: u64,
    told: Result<Got, CertFault>,
) -> Result<Next, EditFault>
    requires instance { IsInstance net.now doc.now list.now }
    requires number { number < 18446744073709551615 }
    requires going { IsGoing net.now doc.now list.now phase }
    ensures leads { IfOk result (LeadsTo net.now doc.now list.now phase number told) }
    ensures fault { IfErr result (IsFaultAt net.now doc.now list.now phase told) }
{
    match phase {
        Phase::Head => Ok(judge_head(number, told)),
        Phase::Answer => judge_answer(alloc, net, doc, list, number, told),
        Phase::Edits(claim) => Ok(judge_edits(alloc, net, doc, list, claim, number, told)?),
        Phase::Blocks(blocks) => Ok(judge_block(doc, blocks, number, told)),
        Phase::Ready(checker) => Ok(judge_ready(checker, number, told)),
        Phase::Log(needs, checker) => Ok(judge_log(needs, checker, number, told)?),
        Phase::Ended => Ok(Next::Done(rejected(number, CertKind::NoEnd))),
    }
}

/// The outcome if the text ends before the line of this number.
fn judge_end(
    alloc: Global,
    net: &Network,
    doc: &Document,
    list: &List<Edit>,
    phase: Phase,
    number: u64,
) -> Result<Outcome, Memory>
    requires judgeable { IsJudgeable doc.now net.now }
    requires going { IsGoing net.now doc.now list.now phase }
    ensures { IfOk result (IsPhaseOutcome net.now doc.now list.now phase number []) }
{
    match phase {
        Phase::Edits(claim) => match end_edits(alloc, net, doc, list, claim, number)? {
            Some(_blocks) => Ok(rejected(number, CertKind::NoEnd)),
            None => Ok(rejected(2, CertKind::Price)),
        },
        Phase::Ended => Ok(Outcome::Accepted),
        _ => Ok(rejected(number, CertKind::NoEnd)),
    }
}

/// The reader's answer to the next line, with out of memory as an error of its own.
fn read_line(
    reader: &mut Reader,
    net: &Network,
    doc: &Document,
    list: &List<Edit>,
    line: &[u8],
) -> Result<Result<Got, CertFault>, Memory>
    ensures reader { IfOk result (λ told.
        standing reader.new ≡ (step net.now doc.now list.now (standing reader.old) line.now).0) }
    ensures told { IfOk result (λ told.
        told ≡ (step net.now doc.now list.now (standing reader.old) line.now).1) }
{
    match reader.line(net, doc, list, line) {
        Ok(got) => Ok(Ok(got)),
        Err(fault) => {
            if fault.kind == CertKind::Memory {
                return Err(Memory);
            }
            Ok(Err(fault))
        }
    }
}

/// The state of judging the certificate of a repair, before its next line. It holds the edits
/// chosen so far, what was read of the current block, and the checker of the log, but no line. All
/// calls take the same network, document and list of edits.
#[derive(Drop)]
pub struct RepairJudge {
    reader: Reader,
    phase: Phase,
    number: u64,
}

impl RepairJudge {
    ghost use Rattle.repair_check.specs.LineByLine.{CanGoOn, HasComeTo, Judges};

    /// A judge before the first line.
    pub fn make(alloc: Global) -> RepairJudge
        ensures come { (net : Network) (doc : Document) (list : Items Edit) (text : Items ℕ) →
            HasComeTo net doc list text (lines text) result }
        ensures going { (net : Network) (doc : Document) (list : Items Edit) →
            CanGoOn net doc list result }
        ensures number { result.number ≡ 1 }
    {
        RepairJudge {
            reader: Reader::make(alloc),
            phase: Phase::Head,
            number: 1,
        }
    }

    /// Judges the next line, given without its line feed: `Continue` if another may come, `Break`
    /// with the outcome if it is known whatever follows. The formula is made once, at the line of
    /// the answer, if that is of its form with a bound of at most `PRICE_LIMIT`; a count above its
    /// limit is a fault there. A line takes time linear in its bytes, a step of the log also in the
    /// clauses that its hints name, and the lines of edits together in the number of edits.
    pub fn line(
        self,
        alloc: Global,
        net: &Network,
        doc: &Document,
        list: &List<Edit>,
        line: &[u8],
    ) -> Result<ControlFlow<Outcome, RepairJudge>, EditFault>
        requires instance { IsInstance net.now doc.now list.now }
        requires number { self.number < 18446744073709551615 }
        requires going { CanGoOn net.now doc.now list.now self }
        ensures judged { (text : Items ℕ) (rest : Items (Items ℕ)) →
            HasComeTo net.now doc.now list.now text (line.now ∷ rest) self →
            IfOk result (λ flow. MatchControlFlow flow
            (HasComeTo net.now doc.now list.now text rest)
            (Judges net.now doc.now list.now text)) }
        ensures fault { (text : Items ℕ) (rest : Items (Items ℕ)) →
            HasComeTo net.now doc.now list.now text (line.now ∷ rest) self →
            IfErr result (IsCountFault net.now doc.now list.now
            (text_answers net.now doc.now list.now text)) }
        ensures going { IfOk result (λ flow. IfSome (continue_value flow)
            (CanGoOn net.now doc.now list.now)) }
        ensures number { IfOk result (λ flow. IfSome (continue_value flow)
            (λ next. next.number ≡ self.number + 1)) }
    {
        let mut reader = self.reader;
        let told = read_line(&mut reader, net, doc, list, line)?;
        match judge_line(alloc, net, doc, list, self.phase, self.number, told)? {
            Next::Line(phase) => Ok(ControlFlow::Continue(RepairJudge {
                reader,
                phase,
                number: self.number + 1,
            })),
            Next::Done(outcome) => Ok(ControlFlow::Break(outcome)),
        }
    }

    /// The outcome if no other line comes.
    pub fn end(
        self,
        alloc: Global,
        net: &Network,
        doc: &Document,
        list: &List<Edit>,
    ) -> Result<Outcome, Memory>
        requires judgeable { IsJudgeable doc.now net.now }
        requires going { CanGoOn net.now doc.now list.now self }
        ensures { (text : Items ℕ) → HasComeTo net.now doc.now list.now text [] self →
            IfOk result (Judges net.now doc.now list.now text) }
    {
        judge_end(alloc, net, doc, list, self.phase, self.number)
    }
}
