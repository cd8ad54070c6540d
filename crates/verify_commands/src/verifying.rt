//! The command `verify DOC`.
ghost use Rattle.run_files.specs.Answers.{Answers, IsJudging, OnlyReads};
ghost use Rattle.run_files.specs.Limits.{least_limit};
ghost use Rattle.run_inputs.specs.Counts.{PoliciesHaveFewClasses, IsJudgingRefusal};
ghost use Rattle.run_inputs.specs.Inputs.{IsFit};
ghost use Rattle.std.specs.List.{AllZip};
ghost use Rattle.std.specs.Prelude.{◌≡◌, ◌≤◌, IfOk};
ghost use Rattle.verify_commands.specs.Verifies.{IsVerdictOn, IsVerified, verdicts_status};

use arc_base::{List, Memory, Name};
use arc_outside::Store;
use net_model::Verdict;
use policy_report::report;
use run_files::{Done, Limits, Stop};
use run_inputs::{Input, count_classes, read_input};
use run_progress::Listener;
use std::alloc::Global;
use verdicts::are_all_yes;

/// The verdict on each policy of the document, in order. The policies are within `CLASS_LIMIT`, so
/// none exceeds it.
fn judge_all<L: Listener>(
    alloc: Global,
    input: &Input,
    listener: &mut L,
) -> Result<List<Verdict>, Memory>
    requires fit { IsFit input.now }
    requires few { PoliciesHaveFewClasses input.now.net input.now.doc.policies }
    ensures { IfOk result
        (AllZip (IsVerdictOn input.now.net input.now.doc.policies) input.now.doc.policies) }
{
    verdicts::judge_all(alloc, &input.net, &input.doc.policies, listener)
}

/// The status of these verdicts.
fn status_of(verdicts: &[Verdict]) -> u8
    ensures value { result ≡ verdicts_status verdicts.now }
    ensures small { result ≤ 1 }
{
    if are_all_yes(verdicts) { 0 } else { 1 }
}

/// Judges each policy of the document, and reports the verdicts.
pub fn verify<S: Store, L: Listener>(
    alloc: Global,
    document: &Name,
    store: &mut S,
    listener: &mut L,
) -> Result<Done, Stop>
    ensures answer { Answers IsJudging (IsJudgingRefusal Limits.Judging document.now)
        (IsVerified document.now) (S.held store.old) result }
    ensures reads { OnlyReads least_limit S.held S.faults S.absences S.taken
        store.old store.new result }
{
    let input = read_input(alloc, document, &[], Limits::Judging, store)?;
    count_classes(alloc, document, &input.net, &input.doc.policies)?;
    let verdicts = judge_all(alloc, &input, listener)?;
    let text = report(alloc, &input.net, &input.doc, &verdicts)?;
    Ok(Done {
        text: Name::of(text),
        writes: List::make(alloc),
        status: status_of(verdicts.slice()),
    })
}
