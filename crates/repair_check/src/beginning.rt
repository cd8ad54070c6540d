//! The lines before the blocks: what they claim, and what is judged once that is known.
ghost use Rattle.policy_encode.specs.Formulas.{IsFaultOfFormula, IsWithin};
ghost use Rattle.price_descent.specs.Outcomes.{least_below};
ghost use Rattle.repair_check.specs.Instances.{IsInstance, IsJudgeable};
ghost use Rattle.repair_check.specs.Outcomes.{rejected};
ghost use Rattle.repair_check.specs.Phases.{IsClaimed, IsFaultAt, IsMispricedClaim, IsOpened};
ghost use Rattle.repair_check.specs.Phases.{IsReady, LeadsTo};
ghost use Rattle.std.specs.Prelude.{◌≡◌, ◌<◌, ◌≤◌, Some, None, List as Items, IfOk};
ghost use Rattle.std.specs.Prelude.{IfErr, IfSome, OnOk, MatchOption};

use crate::phases::{Blocks, Next, Phase, RepairClaim};
use arc_base::limits::PRICE_LIMIT;
use arc_base::{CertKind, List, Memory};
use edit_list::{Edit, EditFault, price, unchosen};
use edit_space::after;
use net_model::{Document, Network};
use network_edit_laws::edits_keep_classes;
use policy_encode::encode;
use policy_report::{CertFault, CertForm, Got};
use proof_check::Checker;
use report_check::Outcome;
use std::alloc::Global;

/// The line with this number is rejected.
pub(crate) fn rejected(number: u64, kind: CertKind) -> Next
    ensures { result ≡ Next.Done (rejected number kind) }
{
    Next::Done(Outcome::Rejected(CertFault { line: number, kind }))
}

/// A checker before the first step of a log, for the repair formula of the bound.
fn ready(
    alloc: Global,
    net: &Network,
    doc: &Document,
    list: &List<Edit>,
    bound: u32,
    least: Option<u32>,
) -> Result<Checker, EditFault>
    requires instance { IsInstance net.now doc.now list.now }
    requires bound { bound ≤ PRICE_LIMIT }
    ensures ready { IfOk result (IsReady net.now doc.now list.now bound least) }
    ensures limits { OnOk result (IsWithin net.now doc.now list.now bound) }
    ensures fault { IfErr result (IsFaultOfFormula net.now doc.now list.now bound) }
{
    let encoded = encode(alloc, net, doc, list, bound)?;
    let checker = Checker::make(alloc, &encoded.formula, least, &encoded.tops)?;
    Ok(checker)
}

/// The least bound of the log of a repair: one less than its price.
fn least_below(price: u32) -> Option<u32>
    ensures { result ≡ least_below price }
{
    price.checked_sub(1)
}

/// What is judged after the answer that there is a repair.
fn begin_repair(
    alloc: Global,
    net: &Network,
    doc: &Document,
    list: &List<Edit>,
    price: u32,
    bound: u32,
    number: u64,
) -> Result<Next, EditFault>
    requires { IsInstance net.now doc.now list.now }
    ensures leads { IfOk result (LeadsTo net.now doc.now list.now Phase.Answer number
        (Ok (Got.Head (CertForm.Repaired price bound)))) }
    ensures fault { IfErr result (IsFaultAt net.now doc.now list.now Phase.Answer
        (Ok (Got.Head (CertForm.Repaired price bound)))) }
{
    let log = if bound <= PRICE_LIMIT {
        Some(ready(alloc, net, doc, list, bound, least_below(price))?)
    } else {
        None
    };
    let chosen = unchosen(alloc, list.slice())?;
    Ok(Next::Line(Phase::Edits(RepairClaim {
        price,
        bound,
        chosen,
        log,
    })))
}

/// What is judged after the answer that there is no repair.
fn begin_none(
    alloc: Global,
    net: &Network,
    doc: &Document,
    list: &List<Edit>,
    bound: u32,
    number: u64,
) -> Result<Next, EditFault>
    requires { IsInstance net.now doc.now list.now }
    ensures leads { IfOk result (LeadsTo net.now doc.now list.now Phase.Answer number
        (Ok (Got.Head (CertForm.NoRepair bound)))) }
    ensures fault { IfErr result (IsFaultAt net.now doc.now list.now Phase.Answer
        (Ok (Got.Head (CertForm.NoRepair bound)))) }
{
    if bound > PRICE_LIMIT {
        return Ok(rejected(2, CertKind::Price));
    }
    let checker = ready(alloc, net, doc, list, bound, Some(bound))?;
    Ok(Next::Line(Phase::Ready(checker)))
}

/// Judges the first line.
pub(crate) fn judge_head(number: u64, told: Result<Got, CertFault>) -> Next
    ensures { (net : Network) (doc : Document) (list : Items Edit) →
        LeadsTo net doc list Phase.Head number told result }
{
    match told {
        Ok(Got::More) => Next::Line(Phase::Answer),
        Err(fault) => Next::Done(Outcome::Rejected(fault)),
        _ => rejected(number, CertKind::Form),
    }
}

/// Judges the line of the answer.
pub(crate) fn judge_answer(
    alloc: Global,
    net: &Network,
    doc: &Document,
    list: &List<Edit>,
    number: u64,
    told: Result<Got, CertFault>,
) -> Result<Next, EditFault>
    requires { IsInstance net.now doc.now list.now }
    ensures leads { IfOk result (LeadsTo net.now doc.now list.now Phase.Answer number told) }
    ensures fault { IfErr result (IsFaultAt net.now doc.now list.now Phase.Answer told) }
{
    match told {
        Ok(Got::Head(CertForm::Repaired(price, bound))) => {
            begin_repair(alloc, net, doc, list, price, bound, number)
        }
        Ok(Got::Head(CertForm::NoRepair(bound))) => {
            begin_none(alloc, net, doc, list, bound, number)
        }
        Err(fault) => Ok(Next::Done(Outcome::Rejected(fault))),
        _ => Ok(rejected(number, CertKind::Form)),
    }
}

/// What is judged once the edits have ended before the line of this number; `None` if the price is
/// not theirs or is above the bound, or the bound is above `PRICE_LIMIT`.
pub(crate) fn end_edits(
    alloc: Global,
    net: &Network,
    doc: &Document,
    list: &List<Edit>,
    claim: RepairClaim,
    number: u64,
) -> Result<Option<Blocks>, Memory>
    requires judgeable { IsJudgeable doc.now net.now }
    requires claim { IsClaimed net.now doc.now list.now claim }
    ensures opened { IfOk result (λ opened.
        MatchOption opened (IsMispricedClaim doc.now list.now claim)
        (IsOpened net.now doc.now list.now claim number)) }
    ensures judgeable { IfOk result (λ opened.
        IfSome opened (λ blocks. IsJudgeable doc.now blocks.now)) }
{
    let RepairClaim {
        price: claimed,
        bound,
        chosen,
        log,
    } = claim;
    let Some(checker) = log else {
        return Ok(None);
    };
    let cost = price(doc, list, chosen.as_slice());
    if claimed > bound || cost != u64::from(claimed) {
        return Ok(None);
    }
    edits_keep_classes();
    let now = after(alloc, net, list, chosen.as_slice())?;
    Ok(Some(Blocks {
        now,
        needs: claimed > 0,
        judged: 0,
        first: number,
        checker,
    }))
}
