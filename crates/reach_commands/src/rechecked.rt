//! The command `recheck DOC REPORT`.
ghost use Rattle.arc_recheck.specs.Singles.{IsAloneAnswer};
ghost use Rattle.class_graph.specs.LastGraphs.{IsGraphOfTable};
ghost use Rattle.net_model.specs.Witnesses.{is_yes};
ghost use Rattle.reach_commands.specs.RecheckRuns.{AreRechecked, IsRightOn, rechecked_status};
ghost use Rattle.reach_commands.specs.RecheckRuns.{IsRecheckOf, IsRecheckRefusal, IsRecheckAnswer};
ghost use Rattle.run_files.specs.Answers.{Answers, IsJudging, OnlyReads};
ghost use Rattle.run_files.specs.Limits.{least_limit};
ghost use Rattle.run_inputs.specs.Counts.{PoliciesHaveFewClasses};
ghost use Rattle.run_inputs.specs.Inputs.{IsFit};
ghost use Rattle.std.specs.List.{AllZip, list_all};
ghost use Rattle.std.specs.Prelude.{◌≡◌, ◌<◌, ◌≤◌, length, slice_get, IfOk, IfSome};

use crate::report_lines::read_held;
use arc_base::limits::PROOF_LIMIT;
use arc_base::{Link, List, Memory, Name};
use arc_outside::Store;
use arc_recheck::{Rechecked, alone_with, recheck_few, recheck_text};
use class_graph::LastGraph;
use command_words::RecheckWords;
use net_model::Verdict;
use run_files::{Done, Limits, Stop, try_file};
use run_inputs::{Input, count_classes, read_document, read_files};
use run_progress::{Listener, Work};
use std::alloc::Global;
use traffic_classes::Marks;

/// Rechecks each policy in order against the block that is held for it. The policies are within
/// `CLASS_LIMIT`, so none exceeds it.
fn recheck_all<L: Listener>(
    alloc: Global,
    input: &Input,
    held: &List<Verdict>,
    listener: &mut L,
) -> Result<List<Rechecked>, Memory>
    requires fit { IsFit input.now }
    requires few { PoliciesHaveFewClasses input.now.net input.now.doc.policies }
    ensures { IfOk result (AreRechecked input.now.net input.now.doc.policies held.now) }
{
    let policies = &input.doc.policies;
    let marks = Marks::of(alloc, &input.net, policies)?;
    let mut rechecked = List::make(alloc);
    let mut last = None;
    for policy in policies.slice() {
        let place = rechecked.len();
        listener.heard(Work::Judging {
            place,
            count: policies.len(),
        });
        let old = held.get(place);
        let one = recheck_few(alloc, &input.net, policies, &marks, policy, old, &mut last)?;
        rechecked.push(one)?;
    }
    Ok(rechecked)
}

/// For each policy in order the links whose failure alone breaks it, if it has an answer. The
/// rechecked verdicts are right.
fn alone_all(
    alloc: Global,
    input: &Input,
    rechecked: &List<Rechecked>,
) -> Result<List<Option<List<Link>>>, Memory>
    requires fit { IsFit input.now }
    requires right { AllZip (IsRightOn input.now.net) input.now.doc.policies rechecked.now }
    ensures { IfOk result (AllZip (IsAloneAnswer input.now.net) input.now.doc.policies) }
{
    let mut found = List::make(alloc);
    let mut last = None;
    for which in 0..input.doc.policies.len() {
        let links = alone_at(alloc, input, rechecked, which, &mut last)?;
        found.push(links)?;
    }
    Ok(found)
}

/// The links whose failure alone breaks the policy at this place, if it has an answer.
fn alone_at(
    alloc: Global,
    input: &Input,
    rechecked: &List<Rechecked>,
    which: u32,
    last: &mut Option<LastGraph>,
) -> Result<Option<List<Link>>, Memory>
    requires fit { IsFit input.now }
    requires right { AllZip (IsRightOn input.now.net) input.now.doc.policies rechecked.now }
    requires place { which < length input.now.doc.policies }
    requires last { IfSome last.old (IsGraphOfTable input.now.net) }
    ensures answer { IfOk result (λ found. IfSome (slice_get input.now.doc.policies which)
        (λ p. IsAloneAnswer input.now.net p found)) }
    ensures last { IfSome last.new (IsGraphOfTable input.now.net) }
{
    let Some(policy) = input.doc.policies.get(which) else {
        unreachable!()
    };
    let Some(one) = rechecked.get(which) else {
        unreachable!()
    };
    alone_with(alloc, &input.net, policy, &one.verdict, last)
}

/// The status of these verdicts.
fn status_of(rechecked: &[Rechecked]) -> u8
    ensures value { result ≡ rechecked_status rechecked.now }
    ensures small { result ≤ 1 }
{
    if are_all_yes(rechecked) { 0 } else { 1 }
}

/// Whether each verdict is a yes.
fn are_all_yes(rechecked: &[Rechecked]) -> bool
    ensures { result ≡ list_all (λ r. is_yes r.verdict) rechecked.now }
{
    rechecked.iter().all(|one| one.verdict.is_yes())
}

/// Rechecks each policy against the block that is held for it, and prints the verdicts and, for
/// each reach policy that holds, the links whose failure alone breaks it.
fn recheck_held<L: Listener>(
    alloc: Global,
    input: &Input,
    held: &List<Verdict>,
    listener: &mut L,
) -> Result<Done, Memory>
    requires fit { IsFit input.now }
    requires few { PoliciesHaveFewClasses input.now.net input.now.doc.policies }
    ensures answer { IfOk result (IsRecheckOf input.now.net input.now.doc.policies held.now) }
    ensures judging { IfOk result IsJudging }
{
    let rechecked = recheck_all(alloc, input, held, listener)?;
    let found = alone_all(alloc, input, &rechecked)?;
    let text = recheck_text(alloc, &input.net, &input.doc.policies, &rechecked, &found)?;
    Ok(Done {
        text: Name::of(text),
        writes: List::make(alloc),
        status: status_of(rechecked.slice()),
    })
}

/// Rechecks an old report over the document and the router files as they are now: keeps each
/// verdict whose witness is still right, judges the others anew, and prints for each reach policy
/// that holds the links whose failure alone breaks it. The old report is read twice: for its size,
/// and, after the router files, line by line for its blocks.
pub fn recheck<S: Store, L: Listener>(
    alloc: Global,
    words: &RecheckWords,
    store: &mut S,
    listener: &mut L,
) -> Result<Done, Stop>
    ensures answer { Answers IsJudging (IsRecheckRefusal words.now) (IsRecheckAnswer words.now)
        (S.held store.old) result }
    ensures reads { OnlyReads least_limit S.held S.faults S.absences S.taken
        store.old store.new result }
{
    let doc = read_document(alloc, &words.document, store)?;
    try_file(alloc, store, &words.report, PROOF_LIMIT)?;
    listener.heard(Work::Reading);
    let input = read_files(alloc, &words.document, doc, &[], Limits::Judging, store)?;
    count_classes(alloc, &words.document, &input.net, &input.doc.policies)?;
    let held = read_held(
        alloc,
        &input.net,
        &input.doc,
        &words.report,
        PROOF_LIMIT,
        store,
    )?;
    let done = recheck_held(alloc, &input, &held, listener)?;
    Ok(done)
}
