//! The verdicts on all policies, if each is a yes.
ghost use Rattle.arc_repair.specs.Answers.{ShowsFew};
ghost use Rattle.arc_repair.specs.Claims.{IsRightYes};
ghost use Rattle.arc_repair.specs.Repairs.{Mends};
ghost use Rattle.arc_repair.specs.Search.{AreYesAfter};
ghost use Rattle.edit_list.specs.Determined.{IsCountable};
ghost use Rattle.edit_list.specs.EditLists.{AreEdits, DocumentHasFewClasses};
ghost use Rattle.net_model.specs.Forwarding.{HasEnds};
ghost use Rattle.net_model.specs.Packets.{subject};
ghost use Rattle.net_model.specs.Policies.{Meets, HasFewFailures};
ghost use Rattle.net_model.specs.Validity.{IsValid};
ghost use Rattle.std.specs.List.{AllZip};
ghost use Rattle.std.specs.Prelude.{◌≡◌, length, All, IfOk, IfSome, IsNone};
ghost use Rattle.verdicts.specs.Judged.{HasFewClassesEach};

use arc_base::{List, Memory};
use edit_list::Edit;
use edit_space::after;
use net_laws::verdicts_are_right;
use net_model::{Document, Network, Policy, Verdict};
use run_progress::Listener;
use std::alloc::Global;
use verdicts::{are_all_yes, judge_all};

/// The verdicts on the policies, if each is a yes.
fn yeses<L: Listener>(
    alloc: Global,
    net: &Network,
    policies: &List<Policy>,
    listener: &mut L,
) -> Result<Option<List<Verdict>>, Memory>
    requires valid { IsValid net.now }
    requires ends { All (λ policy. HasEnds net.now (subject policy)) policies.now }
    requires failures { All (λ policy. HasFewFailures policy.kind) policies.now }
    requires classes { HasFewClassesEach net.now policies.now }
    ensures some { IfOk result (λ verdicts.
        IfSome verdicts (AllZip (IsRightYes net.now) policies.now)) }
    ensures few { IfOk result (λ verdicts. IfSome verdicts (All ShowsFew)) }
    ensures none { IfOk result (λ verdicts. IsNone verdicts → ¬ All (Meets net.now) policies.now) }
{
    verdicts_are_right();
    let verdicts = judge_all(alloc, net, policies, listener)?;
    if are_all_yes(verdicts.slice()) {
        Ok(Some(verdicts))
    } else {
        Ok(None)
    }
}

/// The verdicts on the policies in the network after the chosen edits, if each is a yes.
pub(crate) fn yeses_after<L: Listener>(
    alloc: Global,
    net: &Network,
    doc: &Document,
    list: &List<Edit>,
    chosen: &[bool],
    listener: &mut L,
) -> Result<Option<List<Verdict>>, Memory>
    requires valid { IsValid net.now }
    requires countable { IsCountable net.now }
    requires ends { All (λ policy. HasEnds net.now (subject policy)) doc.now.policies }
    requires failures { All (λ policy. HasFewFailures policy.kind) doc.now.policies }
    requires classes { DocumentHasFewClasses net.now doc.now }
    requires edits { AreEdits net.now doc.now list.now }
    requires flags { length chosen.now ≡ length list.now }
    ensures some { IfOk result (λ verdicts.
        IfSome verdicts (AreYesAfter net.now doc.now list.now chosen.now)) }
    ensures few { IfOk result (λ verdicts. IfSome verdicts (All ShowsFew)) }
    ensures none { IfOk result (λ verdicts. IsNone verdicts →
        ¬ Mends net.now doc.now list.now chosen.now) }
{
    let after = after(alloc, net, list, chosen)?;
    let verdicts = yeses(alloc, &after, &doc.policies, listener)?;
    Ok(verdicts)
}
