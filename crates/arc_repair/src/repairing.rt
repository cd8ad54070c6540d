//! The cheapest repair.
ghost use Rattle.arc_repair.specs.Answers.{AnswersFew, IsRepairAnswer, answer_steps, IsUntouched};
ghost use Rattle.arc_repair.specs.Answers.{KeepsLimits, IsRepairFault};
ghost use Rattle.arc_repair.specs.Repairs.{Mends};
ghost use Rattle.arc_repair.specs.Search.{IsSearched};
ghost use Rattle.arc_repair.specs.declared.answer.Answer.TheVariants.{Done};
ghost use Rattle.clean_logs.specs.CleanLogs.{additions};
ghost use Rattle.edit_list.specs.Determined.{IsCountable};
ghost use Rattle.edit_list.specs.EditLists.{AreEdits, DocumentHasFewClasses};
ghost use Rattle.edit_list.specs.Ordered.{IsInOrder};
ghost use Rattle.edit_list.specs.Prices.{none_of};
ghost use Rattle.edit_list.specs.declared.claims.Claim.TheVariants.{Repaired};
ghost use Rattle.edit_list.specs.declared.edit_kinds.Edit.{Edit as AnyEdit};
ghost use Rattle.net_model.specs.Forwarding.{HasEnds};
ghost use Rattle.net_model.specs.Packets.{subject};
ghost use Rattle.net_model.specs.Policies.{HasFewFailures, MeetsDocument};
ghost use Rattle.net_model.specs.Validity.{IsValid};
ghost use Rattle.price_descent.specs.Outcomes.{found_steps};
ghost use Rattle.proof_log.specs.Texts.{HasLine};
ghost use Rattle.std.specs.Prelude.{◌≡◌, ◌≤◌, [], List as Items, length, All, IfOk, IfErr};

use crate::answer::Answer;
use crate::judging::yeses_after;
use crate::searching::cheapest;
use arc_base::limits::{CONFLICT_LIMIT, EDIT_LIMIT, POLICY_LIMIT, PRICE_LIMIT};
use arc_base::{List, Memory};
use edit_list::laws::edit_lists_are_one;
use edit_list::{Claim, Edit, EditFault, edits, unchosen};
use net_model::{Document, Network, Verdict};
use policy_encode::encode_packed;
use price_descent::Found;
use proof_log::Log;
use run_progress::{Listener, Nobody};
use std::alloc::Global;

/// The flags that choose none of the edits.
fn no_flags(alloc: Global, list: &List<Edit>) -> Result<List<bool>, Memory>
    ensures { IfOk result (λ flags. flags ≡ none_of list.now) }
{
    let flags = unchosen(alloc, list.slice())?;
    let none = List::of(flags)?;
    Ok(none)
}

/// The answer if no edit is needed.
fn untouched(alloc: Global, bound: u32, chosen: List<bool>, verdicts: List<Verdict>) -> Answer
    ensures { result ≡ Done (Repaired 0 bound chosen verdicts) (record { steps = [] }) }
{
    let claim = Claim::Repaired {
        price: 0,
        bound,
        chosen,
        verdicts,
    };
    let log = Log {
        steps: List::make(alloc),
    };
    Answer::Done(claim, log)
}

/// The answer for the result of a search, with the verdicts in the network after the edits that
/// were found.
fn answer_of<L: Listener>(
    alloc: Global,
    net: &Network,
    doc: &Document,
    list: &List<Edit>,
    bound: u32,
    limit: u64,
    found: Found,
    listener: &mut L,
) -> Result<Answer, Memory>
    requires valid { IsValid net.now }
    requires countable { IsCountable net.now }
    requires ends { All (λ policy. HasEnds net.now (subject policy)) doc.now.policies }
    requires failures { All (λ policy. HasFewFailures policy.kind) doc.now.policies }
    requires classes { DocumentHasFewClasses net.now doc.now }
    requires edits { AreEdits net.now doc.now list.now }
    requires bound { bound ≤ PRICE_LIMIT }
    requires searched { IsSearched net.now doc.now list.now bound limit found }
    ensures answer { IfOk result (IsRepairAnswer net.now doc.now list.now bound limit) }
    ensures lines { IfOk result (λ answer. answer_steps answer ≡ found_steps found) }
    ensures few { IfOk result AnswersFew }
{
    match found {
        Found::Nothing(log) => Ok(Answer::Done(Claim::NoRepair { bound }, log)),
        Found::Budget(log) => Ok(Answer::Budget(log)),
        Found::Cheapest(offer, log) => {
            let chosen = offer.values;
            let price = offer.price as u32;
            match yeses_after(alloc, net, doc, list, chosen.slice(), listener)? {
                Some(verdicts) => Ok(Answer::Done(
                    Claim::Repaired {
                        price,
                        bound,
                        chosen,
                        verdicts,
                    },
                    log,
                )),
                None => unreachable!(),
            }
        }
    }
}

/// The cheapest edits of a price up to the bound after which the network meets the document, with a
/// log that shows that none are cheaper; or a log that shows that there are none within the bound.
/// It gives up once the log adds `limit` clauses.
///
/// The classes, the edits and the formula are counted against their limits first, in this order. A
/// network that meets the document already needs no search.
pub fn repair(
    alloc: Global,
    net: &Network,
    doc: &Document,
    bound: u32,
    limit: u64,
) -> Result<Answer, EditFault>
    requires valid { IsValid net.now }
    requires few { length doc.now.policies ≤ POLICY_LIMIT }
    requires ends { All (λ policy. HasEnds net.now (subject policy)) doc.now.policies }
    requires failures { All (λ policy. HasFewFailures policy.kind) doc.now.policies }
    requires bound { bound ≤ PRICE_LIMIT }
    requires limit { limit ≤ CONFLICT_LIMIT }
    ensures answer { IfOk result (λ answer. (list : Items AnyEdit) → AreEdits net.now doc.now list →
        IsRepairAnswer net.now doc.now list bound limit answer) }
    ensures met { IfOk result (λ answer. (list : Items AnyEdit) → AreEdits net.now doc.now list →
        Mends net.now doc.now list (none_of list) → IsUntouched list answer) }
    ensures meets { IfOk result (λ answer. (list : Items AnyEdit) → AreEdits net.now doc.now list →
        IsInOrder net.now → MeetsDocument net.now doc.now → IsUntouched list answer) }
    ensures lines { IfOk result (λ answer. All HasLine (answer_steps answer)) }
    ensures few { IfOk result AnswersFew }
    ensures within { IfOk result (λ answer. additions (answer_steps answer) ≤ limit) }
    ensures limits { IfOk result (λ answer. (list : Items AnyEdit) → AreEdits net.now doc.now list →
        KeepsLimits net.now doc.now list bound) }
    ensures fault { IfErr result (IsRepairFault net.now doc.now bound) }
{
    edit_lists_are_one();
    let list = edits(alloc, net, doc)?;
    let answer = repair_of(alloc, net, doc, &list, bound, limit, &mut Nobody)?;
    Ok(answer)
}

/// The answer that `repair` gives, if these are the edits of the network for the document, and they
/// and the classes are within their limits.
pub fn repair_of<L: Listener>(
    alloc: Global,
    net: &Network,
    doc: &Document,
    list: &List<Edit>,
    bound: u32,
    limit: u64,
    listener: &mut L,
) -> Result<Answer, EditFault>
    requires valid { IsValid net.now }
    requires countable { IsCountable net.now }
    requires few { length doc.now.policies ≤ POLICY_LIMIT }
    requires ends { All (λ policy. HasEnds net.now (subject policy)) doc.now.policies }
    requires failures { All (λ policy. HasFewFailures policy.kind) doc.now.policies }
    requires classes { DocumentHasFewClasses net.now doc.now }
    requires edits { AreEdits net.now doc.now list.now }
    requires few_edits { length list.now ≤ EDIT_LIMIT }
    requires bound { bound ≤ PRICE_LIMIT }
    requires limit { limit ≤ CONFLICT_LIMIT }
    ensures answer { IfOk result (IsRepairAnswer net.now doc.now list.now bound limit) }
    ensures met { IfOk result (λ answer.
        Mends net.now doc.now list.now (none_of list.now) → IsUntouched list.now answer) }
    ensures meets { IfOk result (λ answer.
        IsInOrder net.now → MeetsDocument net.now doc.now → IsUntouched list.now answer) }
    ensures lines { IfOk result (λ answer. All HasLine (answer_steps answer)) }
    ensures few { IfOk result AnswersFew }
    ensures within { IfOk result (λ answer. additions (answer_steps answer) ≤ limit) }
    ensures limits { IfOk result (λ answer. KeepsLimits net.now doc.now list.now bound) }
    ensures fault { IfErr result (IsRepairFault net.now doc.now bound) }
{
    let encoded = encode_packed(alloc, net, doc, list, bound)?;
    let none = no_flags(alloc, list)?;
    if let Some(verdicts) = yeses_after(alloc, net, doc, list, none.slice(), listener)? {
        return Ok(untouched(alloc, bound, none, verdicts));
    }
    let found = cheapest(alloc, net, doc, list, encoded, bound, limit, listener)?;
    let answer = answer_of(alloc, net, doc, list, bound, limit, found, listener)?;
    Ok(answer)
}
