//! The formula of a network, a document and a list of edits.
ghost use Rattle.edit_list.specs.EditLists.{AreEdits, DocumentHasFewClasses};
ghost use Rattle.edit_list.specs.Prices.{weight};
ghost use Rattle.edit_list.specs.declared.edit_kinds.Edit.{Edit as AnyEdit};
ghost use Rattle.edit_list.specs.declared.edit_kinds.EditFault.TheVariants as faults;
ghost use Rattle.net_model.specs.Forwarding.{HasEnds};
ghost use Rattle.net_model.specs.Packets.{subject};
ghost use Rattle.net_model.specs.Policies.{HasFewFailures};
ghost use Rattle.net_model.specs.Validity.{IsValid};
ghost use Rattle.policy_encode.specs.Finding.{IsIndexOf};
ghost use Rattle.policy_encode.specs.Formulas.{IsRepairFormula, IsWithin, IsFaultOfFormula};
ghost use Rattle.policy_encode.specs.Questions.{IsQuestion, AreConditions};
ghost use Rattle.std.specs.List.{AllZip};
ghost use Rattle.std.specs.Prelude.{◌≡◌, ◌≤◌, ◌<◌, ◌^◌, List as Items, length, map, All, IfOk};
ghost use Rattle.std.specs.Prelude.{IfErr, OnOk};
ghost use Rattle.traffic_classes.specs.Classes.{AreMarks};

use crate::edit_index::EditIndex;
use crate::questions::question;
use arc_base::limits::{EDIT_LIMIT, POLICY_LIMIT, PRICE_LIMIT, VARIABLE_LIMIT};
use arc_base::{List, Memory};
use cnf_types::{Formula, Lit};
use condition_formula::{ConditionNet, EncodeFault, PackedEncoding, Question, push};
use edit_list::{Edit, EditFault, weight};
use net_model::{Document, Network};
use std::alloc::Global;
use traffic_classes::Marks;

/// What each edit costs.
fn all_weights(alloc: Global, doc: &Document, edits: &List<Edit>) -> Result<List<u32>, Memory>
    ensures { IfOk result (λ weights. weights ≡ map (weight doc.now.weights) edits.now) }
{
    let mut weights = List::make(alloc);
    for edit in edits.slice() {
        push(&mut weights, weight(&doc.weights, edit))?;
    }
    Ok(weights)
}

/// The questions of all policies, in order.
fn questions(
    alloc: Global,
    net: &Network,
    doc: &Document,
    index: &EditIndex,
    marks: &Marks,
) -> Result<List<Question>, Memory>
    requires marks { AreMarks net.now doc.now.policies marks.now }
    requires ends { All (λ policy. HasEnds net.now (subject policy)) doc.now.policies }
    requires failures { All (λ policy. HasFewFailures policy.kind) doc.now.policies }
    requires index { length index.now.keys.keys < 2 ^ 32 }
    ensures { IfOk result (λ qs. (list : Items AnyEdit) → IsIndexOf list index.now →
        AllZip (IsQuestion net.now doc.now.policies list) doc.now.policies qs) }
{
    let mut questions = List::make(alloc);
    for policy in doc.policies.slice() {
        push(
            &mut questions,
            question(alloc, net, doc, index, marks, policy)?,
        )?;
    }
    Ok(questions)
}

/// The network of conditions.
fn conditions(
    alloc: Global,
    net: &Network,
    doc: &Document,
    edits: &List<Edit>,
) -> Result<ConditionNet, Memory>
    requires valid { IsValid net.now }
    requires ends { All (λ policy. HasEnds net.now (subject policy)) doc.now.policies }
    requires failures { All (λ policy. HasFewFailures policy.kind) doc.now.policies }
    requires edits { AreEdits net.now doc.now edits.now }
    ensures { IfOk result (AreConditions net.now doc.now edits.now) }
{
    let index = EditIndex::of(alloc, edits.slice())?;
    let marks = Marks::of(alloc, net, &doc.policies)?;
    let questions = questions(alloc, net, doc, &index, &marks)?;
    let weights = all_weights(alloc, doc, edits)?;
    Ok(ConditionNet {
        nodes: net.routers.len(),
        links: net.links.len(),
        weights,
        questions,
    })
}

/// The repair formula for prices up to the bound. Its first variables are those of the edits, in
/// order.
///
/// It goes over the arcs and classes of each policy once, and takes time in proportion to the
/// literals.
pub fn encode_packed(
    alloc: Global,
    net: &Network,
    doc: &Document,
    edits: &List<Edit>,
    bound: u32,
) -> Result<PackedEncoding, EditFault>
    requires valid { IsValid net.now }
    requires few { length doc.now.policies ≤ POLICY_LIMIT }
    requires ends { All (λ policy. HasEnds net.now (subject policy)) doc.now.policies }
    requires failures { All (λ policy. HasFewFailures policy.kind) doc.now.policies }
    requires classes { DocumentHasFewClasses net.now doc.now }
    requires edits { AreEdits net.now doc.now edits.now }
    requires few_edits { length edits.now ≤ EDIT_LIMIT }
    requires bound { bound ≤ PRICE_LIMIT }
    ensures formula { IfOk result (λ e.
        IsRepairFormula net.now doc.now edits.now bound e.formula e.tops) }
    ensures variables { IfOk result (λ e. e.formula.vars ≤ VARIABLE_LIMIT) }
    ensures limits { OnOk result (IsWithin net.now doc.now edits.now bound) }
    ensures fault { IfErr result (IsFaultOfFormula net.now doc.now edits.now bound) }
{
    let conditions = conditions(alloc, net, doc, edits)?;
    match condition_formula::encode(alloc, &conditions, bound) {
        Ok(encoded) => Ok(encoded),
        Err(EncodeFault::Limit(kind, count)) => Err(EditFault::Limit(kind, count)),
        Err(EncodeFault::Memory) => Err(EditFault::Memory),
    }
}

/// The repair formula, and for each number up to the bound the literal that the price is above it;
/// none where there are no edits.
#[derive(Debug, Drop)]
pub struct Encoded {
    pub formula: Formula,
    pub tops: List<Lit>,
}

/// Gives each clause of a packed formula a list of its own.
fn unpacked(alloc: Global, packed: PackedEncoding) -> Result<Encoded, EditFault>
    ensures formula { IfOk result (λ e. e.formula ≡ packed.formula) }
    ensures tops { IfOk result (λ e. e.tops ≡ packed.tops) }
    ensures fault { IfErr result (λ fault. fault ≡ faults.Memory) }
{
    let PackedEncoding { formula, tops } = packed;
    match formula.unpacked(alloc) {
        Ok(formula) => Ok(Encoded { formula, tops }),
        Err(_) => Err(EditFault::Memory),
    }
}

/// The formula of `encode_packed`, each clause with a list of its own.
pub fn encode(
    alloc: Global,
    net: &Network,
    doc: &Document,
    edits: &List<Edit>,
    bound: u32,
) -> Result<Encoded, EditFault>
    requires valid { IsValid net.now }
    requires few { length doc.now.policies ≤ POLICY_LIMIT }
    requires ends { All (λ policy. HasEnds net.now (subject policy)) doc.now.policies }
    requires failures { All (λ policy. HasFewFailures policy.kind) doc.now.policies }
    requires classes { DocumentHasFewClasses net.now doc.now }
    requires edits { AreEdits net.now doc.now edits.now }
    requires few_edits { length edits.now ≤ EDIT_LIMIT }
    requires bound { bound ≤ PRICE_LIMIT }
    ensures formula { IfOk result (λ e.
        IsRepairFormula net.now doc.now edits.now bound e.formula e.tops) }
    ensures variables { IfOk result (λ e. e.formula.vars ≤ VARIABLE_LIMIT) }
    ensures limits { OnOk result (IsWithin net.now doc.now edits.now bound) }
    ensures fault { IfErr result (IsFaultOfFormula net.now doc.now edits.now bound) }
{
    match encode_packed(alloc, net, doc, edits, bound) {
        Ok(packed) => unpacked(alloc, packed),
        Err(fault) => Err(fault),
    }
}
