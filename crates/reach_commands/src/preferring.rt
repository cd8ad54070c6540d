//! The command `prefers DOC FROM TO ROUTERS`.
ghost use Rattle.net_model.specs.Forwarding.{HasEnds};
ghost use Rattle.net_model.specs.Packets.{subject};
ghost use Rattle.net_model.specs.Validity.{IsValid};
ghost use Rattle.reach_commands.specs.Added.{AnswersOver};
ghost use Rattle.reach_commands.specs.PreferRuns.{prefers_status, IsPrefersOf};
ghost use Rattle.reach_commands.specs.PreferRuns.{IsPrefersRefusal, IsPrefersAnswer};
ghost use Rattle.run_files.specs.Answers.{Answers, HasStopCause, IsJudging, OnlyReads};
ghost use Rattle.run_files.specs.Limits.{least_limit};
ghost use Rattle.run_inputs.specs.Counts.{PoliciesHaveFewClasses};
ghost use Rattle.std.specs.Prelude.{◌≡◌, ◌≤◌, Contains, IfErr, IfOk};

use crate::added::{reach_policy, with_policy};
use crate::routers::routers_named;
use arc_base::{List, Memory, Name, Router};
use arc_outside::Store;
use arc_prefer::{Preferred, prefers_of, prefers_text};
use command_words::PrefersWords;
use net_model::{Network, Policy};
use run_files::{Done, Limits, Stop};
use run_inputs::{Input, count_classes, read_input};
use std::alloc::Global;
use traffic_classes::Marks;

/// The status of the answer.
fn status_of(answer: &Preferred) -> u8
    ensures value { result ≡ prefers_status answer.now.fault }
    ensures small { result ≤ 1 }
{
    match answer.fault {
        None => 0,
        Some(_) => 1,
    }
}

/// Judges whether the packets of the policy, which is one of these, go by exactly these routers,
/// and prints the answer. The policies are within `CLASS_LIMIT`, so none exceeds it.
fn answer_last(
    alloc: Global,
    net: &Network,
    policies: &List<Policy>,
    policy: Policy,
    wanted: &List<Router>,
) -> Result<Done, Memory>
    requires valid { IsValid net.now }
    requires one { Contains policies.now policy }
    requires ends { HasEnds net.now (subject policy) }
    requires few { PoliciesHaveFewClasses net.now policies.now }
    ensures answer { IfOk result (IsPrefersOf net.now policies.now policy wanted.now) }
    ensures judging { IfOk result IsJudging }
{
    let marks = Marks::of(alloc, net, policies)?;
    let parts = marks.split(alloc, &policy)?;
    let answer = prefers_of(alloc, net, policies, &policy, &parts, wanted)?;
    let text = prefers_text(alloc, net, &answer)?;
    Ok(Done {
        text: Name::of(text),
        writes: List::make(alloc),
        status: status_of(&answer),
    })
}

/// What `prefers` answers over the network of a document with these policies.
fn prefers_over(
    alloc: Global,
    words: &PrefersWords,
    net: &Network,
    policies: List<Policy>,
) -> Result<Done, Stop>
    requires { IsValid net.now }
    ensures answer { AnswersOver words.now.document net.now policies
        (IsPrefersRefusal words.now) (IsPrefersAnswer words.now) result }
    ensures cause { IfErr result (HasStopCause ⊥ ⊥ ⊥) }
{
    let policy = reach_policy(words.from, words.to, 0);
    let judged = with_policy(alloc, &words.document, net, policies, policy)?;
    let wanted = routers_named(alloc, &words.document, net, &words.routers)?;
    count_classes(alloc, &words.document, net, &judged)?;
    let done = answer_last(alloc, net, &judged, policy, &wanted)?;
    Ok(done)
}

/// Judges whether, with all links up, the packets from one prefix to the other go by exactly these
/// routers, and prints the answer with the distances and, if it is no, what shows it.
pub fn prefers<S: Store>(alloc: Global, words: &PrefersWords, store: &mut S) -> Result<Done, Stop>
    ensures answer { Answers IsJudging (IsPrefersRefusal words.now) (IsPrefersAnswer words.now)
        (S.held store.old) result }
    ensures reads { OnlyReads least_limit S.held S.faults S.absences S.taken
        store.old store.new result }
{
    let input = read_input(alloc, &words.document, &[], Limits::Judging, store)?;
    let Input { doc, net } = input;
    prefers_over(alloc, words, &net, doc.policies)
}
