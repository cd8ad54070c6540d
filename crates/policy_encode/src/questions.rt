//! The questions of policies.
ghost use Rattle.edit_list.specs.declared.edit_kinds.Edit.{Edit as AnyEdit};
ghost use Rattle.net_model.specs.Forwarding.{HasHost, HasEnds, IsHostOf};
ghost use Rattle.net_model.specs.Packets.{subject};
ghost use Rattle.net_model.specs.Policies.{HasFewFailures};
ghost use Rattle.policy_encode.specs.Answers.{class_ends};
ghost use Rattle.policy_encode.specs.Finding.{IsIndexOf};
ghost use Rattle.policy_encode.specs.Questions.{demand_of, IsQuestion};
ghost use Rattle.std.specs.Prelude.{◌≡◌, ◌<◌, ◌^◌, map, List, length, IfOk};
ghost use Rattle.traffic_classes.specs.Classes.{AreMarks};

use crate::answers::class_ends;
use crate::condition_arcs::ArcContext;
use crate::edit_index::EditIndex;
use arc_base::{Face, List, Memory, Prefix};
use condition_formula::{ClassEnds, Demand, Question, push};
use net_model::{Class, Document, FaceRow, Network, Policy, PolicyKind};
use std::alloc::Global;
use traffic_classes::Marks;

/// What the policy demands: for reach one path more than links may fail.
fn demand_of(kind: PolicyKind) -> Demand
    requires { HasFewFailures kind }
    ensures { result ≡ demand_of kind }
{
    match kind {
        PolicyKind::Blocked => Demand::Blocked,
        PolicyKind::Through => Demand::Through,
        PolicyKind::Reach(failures) => Demand::Reach(failures + 1),
    }
}

/// The place of the interface in whose host network the prefix lies.
fn host_place(net: &Network, p: Prefix) -> Face
    requires { HasHost net.now p }
    ensures { IsHostOf net.now p result.0 }
{
    match net.host_of(p) {
        Some(face) => face,
        None => unreachable!(),
    }
}

/// For each class, the conditions under which its packets enter and leave.
fn all_ends(
    alloc: Global,
    net: &Network,
    index: &EditIndex,
    source: Face,
    source_row: &FaceRow,
    target: &FaceRow,
    classes: &List<Class>,
) -> Result<List<ClassEnds>, Memory>
    requires { length index.now.keys.keys < 2 ^ 32 }
    ensures { IfOk result (λ ends. (list : List AnyEdit) → IsIndexOf list index.now →
        ends ≡ map (class_ends net.now list source source_row.now target.now) classes.now) }
{
    let mut ends = List::make(alloc);
    for class in classes.slice() {
        push(
            &mut ends,
            class_ends(net, index, source, source_row, target, *class),
        )?;
    }
    Ok(ends)
}

/// The question of a policy, under the marks of the network with all policies.
pub(crate) fn question(
    alloc: Global,
    net: &Network,
    doc: &Document,
    index: &EditIndex,
    marks: &Marks,
    policy: &Policy,
) -> Result<Question, Memory>
    requires marks { AreMarks net.now doc.now.policies marks.now }
    requires ends { HasEnds net.now (subject policy.now) }
    requires failures { HasFewFailures policy.now.kind }
    requires index { length index.now.keys.keys < 2 ^ 32 }
    ensures { IfOk result (λ q. (list : List AnyEdit) → IsIndexOf list index.now →
        IsQuestion net.now doc.now.policies list policy.now q) }
{
    let source = host_place(net, policy.from);
    let target = host_place(net, policy.to);
    let Some(source_row) = net.faces.get(source.0) else {
        unreachable!()
    };
    let Some(target_row) = net.faces.get(target.0) else {
        unreachable!()
    };
    let Some(to) = target_row.host else {
        unreachable!()
    };
    let classes = marks.split(alloc, policy)?;
    let context = ArcContext {
        net,
        index,
        to,
        classes: &classes,
    };
    let arcs = context.arcs(alloc)?;
    let ends = all_ends(alloc, net, index, source, source_row, target_row, &classes)?;
    Ok(Question {
        demand: demand_of(policy.kind),
        source: source_row.router.0,
        target: target_row.router.0,
        arcs,
        classes: ends,
    })
}
