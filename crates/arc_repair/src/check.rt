//! The check of a claim.
use crate::defects::{bound_of, defect, least_bound, needs_refutation};
use arc_base::CertKind;
use arc_base::limits::{POLICY_LIMIT, PRICE_LIMIT};
use edit_list::laws::edit_lists_are_one;
use edit_list::{Claim, EditFault, edits};
use net_model::{Document, Network};
use policy_encode::encode;
use proof_check::{Checker, StepFault};
use proof_log::Step;
use std::alloc::Global;

/// A check of a claim, which takes the steps of its log one by one.
#[derive(Drop)]
pub struct Check {
    checker: Checker,
    needs_refutation: bool,
}

/// The result of judging a claim before its log is read.
#[derive(Drop)]
pub enum Made {
    /// Nothing but the log is left to judge.
    Good(Check),
    /// The first defect of the claim.
    Bad(CertKind),
}

impl Check {
    ghost use Rattle.arc_repair.specs.Answers.{IsRepairFault};
    ghost use Rattle.arc_repair.specs.Checks.{ClaimKeepsLimits, HasFlags, IsCheckMade, knowledge};
    ghost use Rattle.arc_repair.specs.Claims.{claim_bound};
    ghost use Rattle.arc_repair.specs.Laws.{accepts};
    ghost use Rattle.edit_list.specs.EditLists.{AreEdits};
    ghost use Rattle.edit_list.specs.declared.edit_kinds.Edit.{Edit as AnyEdit};
    ghost use Rattle.net_model.specs.Forwarding.{HasEnds};
    ghost use Rattle.net_model.specs.Packets.{subject};
    ghost use Rattle.net_model.specs.Policies.{HasFewFailures};
    ghost use Rattle.net_model.specs.Validity.{IsValid};
    ghost use Rattle.proof_check.specs.Knowledge.{step_fault, after, IsFirst};
    ghost use Rattle.std.specs.Prelude.{◌≡◌, ◌≤◌, None, List as Items, length, All, IfOk, IfErr};
    ghost use Rattle.std.specs.Prelude.{OnOk, OnErr};

    /// Judges the claim without its log: its price, and then each of its verdicts in the network
    /// after the edits.
    ///
    /// The classes, the edits and, for a bound up to `PRICE_LIMIT`, the formula are counted against
    /// their limits first.
    pub fn make(
        alloc: Global,
        net: &Network,
        doc: &Document,
        claim: &Claim,
    ) -> Result<Made, EditFault>
        requires valid { IsValid net.now }
        requires few { length doc.now.policies ≤ POLICY_LIMIT }
        requires ends { All (λ policy. HasEnds net.now (subject policy)) doc.now.policies }
        requires failures { All (λ policy. HasFewFailures policy.kind) doc.now.policies }
        requires flags { HasFlags net.now doc.now claim.now }
        ensures made { IfOk result (λ made. (list : Items AnyEdit) → AreEdits net.now doc.now list →
            IsCheckMade net.now doc.now list claim.now made) }
        ensures limits { IfOk result (λ made.
            (list : Items AnyEdit) → AreEdits net.now doc.now list →
            ClaimKeepsLimits net.now doc.now list claim.now) }
        ensures fault { IfErr result (IsRepairFault net.now doc.now (claim_bound claim.now)) }
    {
        edit_lists_are_one();
        let list = edits(alloc, net, doc)?;
        let bound = bound_of(claim);
        if bound > PRICE_LIMIT {
            return Ok(Made::Bad(CertKind::Price));
        }
        let encoded = encode(alloc, net, doc, &list, bound)?;
        if let Some(kind) = defect(alloc, net, doc, &list, claim)? {
            return Ok(Made::Bad(kind));
        }
        let least = least_bound(claim);
        Ok(Made::Good(Check {
            checker: Checker::make(alloc, &encoded.formula, least, &encoded.tops)?,
            needs_refutation: needs_refutation(claim),
        }))
    }

    /// Judges a step of the log, and takes it if it is accepted. After a fault the check is
    /// unchanged.
    pub fn step(&mut self, s: &Step) -> Result<(), StepFault>
        ensures ok { OnOk result (step_fault (knowledge self.old) s.now ≡ None) }
        ensures after { OnOk result (knowledge self.new ≡ after (knowledge self.old) s.now) }
        ensures fault { IfErr result (IsFirst (step_fault (knowledge self.old) s.now)) }
        ensures same { OnErr result (knowledge self.new ≡ knowledge self.old) }
        ensures needs { self.new.needs_refutation ≡ self.old.needs_refutation }
    {
        self.checker.step(s)
    }

    /// Whether the claim and the steps so far are accepted.
    pub fn accepted(&self) -> bool
        ensures { result ≡ accepts self.now }
    {
        !self.needs_refutation || self.checker.refuted()
    }
}
