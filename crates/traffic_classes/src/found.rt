//! Gathering the classes of several policies, each once.
ghost use Rattle.std.specs.Prelude.{◌≡◌, ◌+◌, ◌*◌, ◌<◌, ◌≤◌, [], fold, length, OnOk, IfErr};
ghost use Rattle.std.specs.Prelude.{count_by};
ghost use Rattle.traffic_classes.specs.AllClasses.{key_of, with_class, lies_off, IsIndexed};
ghost use Rattle.traffic_classes.specs.Classes.{classes_between, classes_from, all_triples, told};
ghost use Rattle.traffic_classes.specs.Classes.{CountsMore};

use crate::fault::ClassFault;
use crate::policy_leaves::Leaves;
use arc_base::limits::CLASS_LIMIT;
use arc_base::{Memory, Prefix};
use indexmap::IndexSet;
use net_model::{Class, Policy, Service};
use std::alloc::Global;

/// The six numbers that make a class: first address and length of its sources, and of its
/// destinations, and its first and last service.
pub type ClassKey = (u32, u8, u32, u8, u32, u32);

/// The numbers of a class.
fn key_of(class: &Class) -> ClassKey
    ensures { result ≡ key_of class.now }
{
    (
        class.from.addr,
        class.from.len,
        class.to.addr,
        class.to.len,
        class.service.low,
        class.service.high,
    )
}

/// Whether a class does not lie in a policy.
fn lies_off(class: &Class, policy: &Policy) -> bool
    ensures { result ≡ lies_off policy.now class.now }
{
    !(class.from.inside(&policy.from)
        && class.to.inside(&policy.to)
        && class.service.inside(&policy.service))
}

/// The classes found so far, each once.
#[derive(Drop)]
pub struct Found {
    /// Their numbers, to look them up by.
    pub keys: IndexSet<ClassKey>,
    pub classes: Vec<Class>,
}

impl Found {
    /// No class.
    pub fn none(alloc: Global) -> Found
        ensures indexed { IsIndexed result }
        ensures none { result.classes.items ≡ [] }
    {
        Found {
            keys: IndexSet::new(alloc),
            classes: Vec::new(alloc),
        }
    }

    /// Adds the classes of a policy with these leaves, unless there are too many with them.
    pub fn add(&mut self, policy: &Policy, leaves: &Leaves) -> Result<(), ClassFault>
        requires indexed { IsIndexed self.old }
        requires few { length self.old.classes.items ≤ CLASS_LIMIT }
        ensures indexed { OnOk result (IsIndexed self.new) }
        ensures added { OnOk result (self.new.classes.items ≡ fold with_class self.old.classes.items
            (all_triples leaves.now.sources leaves.now.destinations leaves.now.services)) }
        ensures few { OnOk result (length leaves.now.sources * length leaves.now.destinations *
            length leaves.now.services + count_by (lies_off policy.now) self.old.classes.items
            ≤ CLASS_LIMIT) }
        ensures many { IfErr result
            (CountsMore (λ count. told (length leaves.now.sources * length leaves.now.destinations *
            length leaves.now.services + count_by (lies_off policy.now) self.old.classes.items)
            ≡ count)) }
    {
        let count = leaves.count().saturating_add(self.count_off(policy));
        if count > CLASS_LIMIT {
            return Err(ClassFault::TooMany(count));
        }
        for source in leaves.sources.slice() {
            self.add_from(*source, leaves)?;
        }
        Ok(())
    }

    /// The number of classes that do not lie in a policy.
    fn count_off(&self, policy: &Policy) -> u64
        ensures { result ≡ count_by (lies_off policy.now) self.now.classes.items }
    {
        let mut count = 0;
        for class in &self.classes {
            if lies_off(class, policy) {
                count += 1;
            }
        }
        count
    }

    /// Adds the classes from one source.
    fn add_from(&mut self, source: Prefix, leaves: &Leaves) -> Result<(), Memory>
        requires { IsIndexed self.old }
        ensures indexed { OnOk result (IsIndexed self.new) }
        ensures added { OnOk result (self.new.classes.items ≡ fold with_class self.old.classes.items
            (classes_from leaves.now.destinations leaves.now.services source)) }
    {
        for destination in leaves.destinations.slice() {
            self.add_between(source, *destination, leaves.services.slice())?;
        }
        Ok(())
    }

    /// Adds the classes from one source to one destination.
    fn add_between(
        &mut self,
        source: Prefix,
        destination: Prefix,
        services: &[Service],
    ) -> Result<(), Memory>
        requires { IsIndexed self.old }
        ensures indexed { OnOk result (IsIndexed self.new) }
        ensures added { OnOk result (self.new.classes.items ≡ fold with_class self.old.classes.items
            (classes_between services.now source destination)) }
    {
        for service in services {
            self.add_class(Class {
                from: source,
                to: destination,
                service: *service,
            })?;
        }
        Ok(())
    }

    /// Adds a class, unless it is there.
    fn add_class(&mut self, class: Class) -> Result<(), Memory>
        requires { IsIndexed self.old }
        ensures indexed { OnOk result (IsIndexed self.new) }
        ensures added { OnOk result
            (self.new.classes.items ≡ with_class self.old.classes.items class) }
    {
        let (_place, new) = self.keys.insert_full(key_of(&class))?;
        if new {
            self.classes.push(class)?;
        }
        Ok(())
    }
}
