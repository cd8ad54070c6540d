//! The lines after the answer, one by one.
ghost use Rattle.repair_check.specs.Instances.{IsJudgeable};
ghost use Rattle.repair_check.specs.Outcomes.{is_edit_kind};
ghost use Rattle.repair_check.specs.Phases.{EndsEdits, IsClaimed, LeadsTo};
ghost use Rattle.std.specs.Prelude.{◌≡◌, ◌<◌, List as Items, true, set, IfOk};

use crate::beginning::{end_edits, rejected};
use crate::phases::{Blocks, Next, Phase, RepairClaim};
use arc_base::{CertKind, List, Memory};
use edit_list::Edit;
use net_model::{Document, Network, Verdict};
use policy_report::{CertFault, Got};
use proof_check::{Checker, fault_kind};
use proof_log::Step;
use report_check::{Outcome, is_right_at};
use std::alloc::Global;

/// Whether a line is rejected as an edit.
fn is_edit_kind(kind: CertKind) -> bool
    ensures { result ≡ is_edit_kind kind }
{
    matches!(kind, CertKind::Edit)
}

/// Judges a step of the log.
fn judge_step(needs: bool, checker: Checker, number: u64, step: &Step) -> Result<Next, Memory>
    ensures { IfOk result (λ next. (net : Network) (doc : Document) (list : Items Edit) →
        LeadsTo net doc list (Phase.Log needs checker) number (Ok (Got.Step step.now)) next) }
{
    let mut now = checker;
    match now.step(step) {
        Ok(()) => Ok(Next::Line(Phase::Log(needs, now))),
        Err(fault) => {
            let kind = fault_kind(fault);
            if kind == CertKind::Memory {
                return Err(Memory);
            }
            Ok(rejected(number, kind))
        }
    }
}

/// Judges a line of the log.
pub(crate) fn judge_log(
    needs: bool,
    checker: Checker,
    number: u64,
    told: Result<Got, CertFault>,
) -> Result<Next, Memory>
    ensures { IfOk result (λ next. (net : Network) (doc : Document) (list : Items Edit) →
        LeadsTo net doc list (Phase.Log needs checker) number told next) }
{
    match told {
        Ok(Got::More) => Ok(Next::Line(Phase::Log(needs, checker))),
        Ok(Got::Step(step)) => judge_step(needs, checker, number, &step),
        Ok(Got::End) => {
            if !needs || checker.refuted() {
                Ok(Next::Line(Phase::Ended))
            } else {
                Ok(rejected(number, CertKind::NotRefuted))
            }
        }
        Err(fault) => Ok(Next::Done(Outcome::Rejected(fault))),
        _ => Ok(rejected(number, CertKind::Form)),
    }
}

/// Judges the line before the log of a claim that there is no repair.
pub(crate) fn judge_ready(checker: Checker, number: u64, told: Result<Got, CertFault>) -> Next
    ensures { (net : Network) (doc : Document) (list : Items Edit) →
        LeadsTo net doc list (Phase.Ready checker) number told result }
{
    match told {
        Ok(Got::More) => Next::Line(Phase::Log(true, checker)),
        Err(fault) => Next::Done(Outcome::Rejected(fault)),
        _ => rejected(number, CertKind::Form),
    }
}

/// Judges a line that completes nothing: one inside a block, or the one before the log.
fn go_on(doc: &Document, blocks: Blocks, number: u64) -> Next
    requires { IsJudgeable doc.now blocks.now }
    ensures { (net : Network) (list : Items Edit) →
        LeadsTo net doc.now list (Phase.Blocks blocks) number (Ok Got.More) result }
{
    if blocks.judged == u64::from(doc.policies.len()) {
        Next::Line(Phase::Log(blocks.needs, blocks.checker))
    } else {
        Next::Line(Phase::Blocks(blocks))
    }
}

/// Judges the verdict on the policy at this place.
fn judge_verdict(doc: &Document, blocks: Blocks, number: u64, which: u32, verdict: &Verdict) -> Next
    requires judgeable { IsJudgeable doc.now blocks.now }
    requires number { number < 18446744073709551615 }
    ensures { (net : Network) (list : Items Edit) →
        LeadsTo net doc.now list (Phase.Blocks blocks) number
        (Ok (Got.Verdict which verdict.now)) result }
{
    if !is_right_at(&blocks.now, doc.policies.slice(), which, verdict) {
        return rejected(blocks.first, CertKind::Witness);
    }
    Next::Line(Phase::Blocks(Blocks {
        now: blocks.now,
        needs: blocks.needs,
        judged: u64::from(which) + 1,
        first: number + 1,
        checker: blocks.checker,
    }))
}

/// Judges a line of the blocks, or the one before the log.
pub(crate) fn judge_block(
    doc: &Document,
    blocks: Blocks,
    number: u64,
    told: Result<Got, CertFault>,
) -> Next
    requires judgeable { IsJudgeable doc.now blocks.now }
    requires number { number < 18446744073709551615 }
    ensures { (net : Network) (list : Items Edit) →
        LeadsTo net doc.now list (Phase.Blocks blocks) number told result }
{
    match told {
        Ok(Got::More) => go_on(doc, blocks, number),
        Ok(Got::Verdict(which, verdict)) => judge_verdict(doc, blocks, number, which, &verdict),
        Err(fault) => Next::Done(Outcome::Rejected(fault)),
        _ => rejected(number, CertKind::Form),
    }
}

/// Sets the flag of the edit at this place.
fn choose(chosen: Vec<bool>, place: u32) -> Vec<bool>
    ensures { result.items ≡ set chosen.items place true }
{
    let mut flags = chosen;
    if (place as usize) < flags.len() {
        flags[place as usize] = true;
    }
    flags
}

/// Judges the first line that is not an edit.
fn judge_after_edits(
    alloc: Global,
    net: &Network,
    doc: &Document,
    list: &List<Edit>,
    claim: RepairClaim,
    number: u64,
    told: Result<Got, CertFault>,
) -> Result<Next, Memory>
    requires judgeable { IsJudgeable doc.now net.now }
    requires claim { IsClaimed net.now doc.now list.now claim }
    requires number { number < 18446744073709551615 }
    requires ends_edits { EndsEdits told }
    ensures { IfOk result
        (LeadsTo net.now doc.now list.now (Phase.Edits claim) number told) }
{
    match end_edits(alloc, net, doc, list, claim, number)? {
        Some(blocks) => Ok(judge_block(doc, blocks, number, told)),
        None => Ok(rejected(2, CertKind::Price)),
    }
}

/// Judges a line after the answer that there is a repair.
pub(crate) fn judge_edits(
    alloc: Global,
    net: &Network,
    doc: &Document,
    list: &List<Edit>,
    claim: RepairClaim,
    number: u64,
    told: Result<Got, CertFault>,
) -> Result<Next, Memory>
    requires judgeable { IsJudgeable doc.now net.now }
    requires claim { IsClaimed net.now doc.now list.now claim }
    requires number { number < 18446744073709551615 }
    ensures { IfOk result
        (LeadsTo net.now doc.now list.now (Phase.Edits claim) number told) }
{
    match told {
        Ok(Got::Edit(place)) => {
            Ok(Next::Line(Phase::Edits(RepairClaim {
                price: claim.price,
                bound: claim.bound,
                chosen: choose(claim.chosen, place),
                log: claim.log,
            })))
        }
        Ok(got) => judge_after_edits(alloc, net, doc, list, claim, number, Ok(got)),
        Err(fault) => {
            if is_edit_kind(fault.kind) {
                return Ok(Next::Done(Outcome::Rejected(fault)));
            }
            judge_after_edits(alloc, net, doc, list, claim, number, Err(fault))
        }
    }
}
