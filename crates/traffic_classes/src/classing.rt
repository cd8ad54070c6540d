//! The classes of one policy, and those of all together.
ghost use Rattle.net_model.specs.Packets.{subject};
ghost use Rattle.net_model.specs.declared.policies.Policy.{Policy as AnyPolicy};
ghost use Rattle.net_model.specs.declared.rows.Network.{Network as AnyNetwork};
ghost use Rattle.std.specs.Prelude.{◌<◌, ◌≤◌, List as Items, length, slice_get, IfOk, IfErr};
ghost use Rattle.std.specs.Prelude.{IfSome};
ghost use Rattle.traffic_classes.specs.AllClasses.{AreAllClasses, FirstHaveMore};
ghost use Rattle.traffic_classes.specs.Classes.{AreMarks, AreClasses, HasClasses, CountsMore};
ghost use Rattle.traffic_classes.specs.Parts.{MakeUp, TellApart};

use crate::fault::ClassFault;
use crate::found::Found;
use crate::marks::Marks;
use crate::policy_leaves::Leaves;
use arc_base::limits::CLASS_LIMIT;
use arc_base::{List, Memory};
use net_model::{Class, Network, Policy};
use std::alloc::Global;

/// The traffic classes of the policy at a place, counted from 0: all triples of a leaf of its
/// source prefix, a leaf of its destination prefix and a leaf of its services, for each source in
/// rising order of addresses, and for each destination.
///
/// The count of a fault saturates at 64 bits.
pub fn classes(
    alloc: Global,
    net: &Network,
    policies: &List<Policy>,
    which: u32,
) -> Result<List<Class>, ClassFault>
    requires { which < length policies.now }
    ensures classes { IfOk result (λ cs.
        IfSome (slice_get policies.now which) (λ p. AreClasses net.now policies.now p cs)) }
    ensures parts { IfOk result (λ cs.
        IfSome (slice_get policies.now which) (λ p. MakeUp net.now (subject p) cs)) }
    ensures few { IfOk result (λ cs. length cs ≤ CLASS_LIMIT) }
    ensures many { IfErr result (CountsMore (λ count.
        IfSome (slice_get policies.now which) (λ p. HasClasses net.now policies.now p count))) }
{
    match policies.get(which) {
        Some(policy) => {
            let marks = Marks::of(alloc, net, policies)?;
            marks.classes(alloc, policy)
        }
        None => unreachable!(),
    }
}

impl Marks {
    /// The traffic classes of a policy under these marks, as the call `classes` gives them. For
    /// several policies of a network find their marks once, by `Marks::of`.
    pub fn classes(&self, alloc: Global, policy: &Policy) -> Result<List<Class>, ClassFault>
        ensures classes { IfOk result (λ cs. (net : AnyNetwork) (policies : Items AnyPolicy) →
            AreMarks net policies self.now → AreClasses net policies policy.now cs) }
        ensures parts { IfOk result (λ cs. (net : AnyNetwork) (policies : Items AnyPolicy) →
            AreMarks net policies self.now → MakeUp net (subject policy.now) cs) }
        ensures few { IfOk result (λ cs. length cs ≤ CLASS_LIMIT) }
        ensures many { IfErr result
            (CountsMore (λ count. (net : AnyNetwork) (policies : Items AnyPolicy) →
            AreMarks net policies self.now → HasClasses net policies policy.now count)) }
    {
        let leaves = Leaves::of(alloc, self, policy)?;
        Ok(leaves.few_triples(alloc)?)
    }

    /// The traffic classes of a policy under these marks, however many they are: for a policy that
    /// is known to have few.
    pub fn split(&self, alloc: Global, policy: &Policy) -> Result<List<Class>, Memory>
        ensures classes { IfOk result (λ cs. (net : AnyNetwork) (policies : Items AnyPolicy) →
            AreMarks net policies self.now → AreClasses net policies policy.now cs) }
        ensures parts { IfOk result (λ cs. (net : AnyNetwork) (policies : Items AnyPolicy) →
            AreMarks net policies self.now → MakeUp net (subject policy.now) cs) }
    {
        let leaves = Leaves::of(alloc, self, policy)?;
        let classes = List::of(leaves.triples(alloc)?)?;
        Ok(classes)
    }
}

/// The traffic classes of all policies, each once, in the order in which they first occur in the
/// policies' lists.
///
/// The count of a fault is that up to the first policy with which there are too many, and saturates
/// at 64 bits.
pub fn all_classes(
    alloc: Global,
    net: &Network,
    policies: &List<Policy>,
) -> Result<List<Class>, ClassFault>
    ensures classes { IfOk result (AreAllClasses net.now policies.now policies.now) }
    ensures parts { IfOk result (TellApart net.now policies.now) }
    ensures few { IfOk result (λ cs. length cs ≤ CLASS_LIMIT) }
    ensures many { IfErr result (CountsMore (FirstHaveMore net.now policies.now)) }
{
    let marks = Marks::of(alloc, net, policies)?;
    let mut found = Found::none(alloc);
    for policy in policies.slice() {
        let leaves = Leaves::of(alloc, &marks, policy)?;
        found.add(policy, &leaves)?;
    }
    Ok(List::of(found.classes)?)
}
