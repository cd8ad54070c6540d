//! The command `nodes DOC FROM TO K`.
ghost use Rattle.arc_nodecut.specs.Judged.{IsFewReach};
ghost use Rattle.net_model.specs.Forwarding.{HasEnds};
ghost use Rattle.net_model.specs.Packets.{subject};
ghost use Rattle.net_model.specs.Validity.{IsValid};
ghost use Rattle.reach_commands.specs.Added.{AnswersOver};
ghost use Rattle.reach_commands.specs.Nodes.{nodes_status, IsNodesOf};
ghost use Rattle.reach_commands.specs.Nodes.{IsNodesRefusal, IsNodesAnswer};
ghost use Rattle.run_files.specs.Answers.{Answers, HasStopCause, IsJudging, OnlyReads};
ghost use Rattle.run_files.specs.Limits.{least_limit};
ghost use Rattle.run_inputs.specs.Counts.{PoliciesHaveFewClasses};
ghost use Rattle.std.specs.Prelude.{◌≡◌, ◌≤◌, Contains, IfErr, IfOk};

use crate::added::{reach_policy, with_policy};
use arc_base::limits::FAILURE_LIMIT;
use arc_base::{List, Memory, Name};
use arc_nodecut::{NodeVerdict, judge_nodes_of, nodes_text};
use arc_outside::Store;
use command_words::NodesWords;
use net_model::{Network, Policy};
use run_files::{Done, Limits, Stop};
use run_inputs::{Input, count_classes, read_input};
use std::alloc::Global;
use traffic_classes::Marks;

/// The status of the verdict.
fn status_of(verdict: &NodeVerdict) -> u8
    ensures value { result ≡ nodes_status verdict.now }
    ensures small { result ≤ 1 }
{
    match verdict {
        NodeVerdict::Same | NodeVerdict::Direct(_) | NodeVerdict::Apart(_) => 0,
        NodeVerdict::Denied(_) | NodeVerdict::Cut(_, _) | NodeVerdict::Refused(_, _) => 1,
    }
}

/// Judges the policy, which is one of these and allows this many failures, and prints the verdict
/// with its witness. The policies are within `CLASS_LIMIT`, so none exceeds it.
fn judge_last(
    alloc: Global,
    net: &Network,
    policies: &List<Policy>,
    policy: Policy,
    failures: u32,
) -> Result<Done, Memory>
    requires valid { IsValid net.now }
    requires one { Contains policies.now policy }
    requires ends { HasEnds net.now (subject policy) }
    requires reach { IsFewReach policy.kind }
    requires few { PoliciesHaveFewClasses net.now policies.now }
    ensures answer { IfOk result (IsNodesOf net.now policies.now policy failures) }
    ensures judging { IfOk result IsJudging }
{
    let marks = Marks::of(alloc, net, policies)?;
    let parts = marks.split(alloc, &policy)?;
    let verdict = judge_nodes_of(alloc, net, policies, &policy, &parts)?;
    let text = nodes_text(alloc, net, failures, &verdict)?;
    Ok(Done {
        text: Name::of(text),
        writes: List::make(alloc),
        status: status_of(&verdict),
    })
}

/// What `nodes` answers over the network of a document with these policies.
fn nodes_over(
    alloc: Global,
    words: &NodesWords,
    net: &Network,
    policies: List<Policy>,
) -> Result<Done, Stop>
    requires valid { IsValid net.now }
    requires few { words.now.failures ≤ FAILURE_LIMIT }
    ensures answer { AnswersOver words.now.document net.now policies
        (IsNodesRefusal words.now) (IsNodesAnswer words.now) result }
    ensures cause { IfErr result (HasStopCause ⊥ ⊥ ⊥) }
{
    let policy = reach_policy(words.from, words.to, words.failures);
    let judged = with_policy(alloc, &words.document, net, policies, policy)?;
    count_classes(alloc, &words.document, net, &judged)?;
    let done = judge_last(alloc, net, &judged, policy, words.failures)?;
    Ok(done)
}

/// Judges whether the packets from one prefix to the other arrive whichever K routers other than
/// their ends fail, and prints the verdict with its witness.
pub fn nodes<S: Store>(alloc: Global, words: &NodesWords, store: &mut S) -> Result<Done, Stop>
    requires few { words.now.failures ≤ FAILURE_LIMIT }
    ensures answer { Answers IsJudging (IsNodesRefusal words.now) (IsNodesAnswer words.now)
        (S.held store.old) result }
    ensures reads { OnlyReads least_limit S.held S.faults S.absences S.taken
        store.old store.new result }
{
    let input = read_input(alloc, &words.document, &[], Limits::Judging, store)?;
    let Input { doc, net } = input;
    nodes_over(alloc, words, &net, doc.policies)
}
