//! The leaves of a policy's two prefixes and of its services, and their triples.
ghost use Rattle.std.specs.Prelude.{◌≡◌, ◌+◌, ◌*◌, ◌≤◌, ◌++◌, length, IfOk, OnOk, IfErr};
ghost use Rattle.traffic_classes.specs.Classes.{classes_between, classes_from, all_triples, told};
ghost use Rattle.traffic_classes.specs.Classes.{CountsMore};
ghost use Rattle.traffic_classes.specs.Leaves.{AreLeaves};
ghost use Rattle.traffic_classes.specs.ServiceLeaves.{AreServiceLeaves};

use crate::fault::ClassFault;
use crate::halving::leaves_of;
use crate::marks::Marks;
use crate::service_leaves::service_leaves_of;
use crate::sorted_marks::begin_inside;
use arc_base::limits::CLASS_LIMIT;
use arc_base::{List, Memory, Prefix};
use net_model::{Class, Policy, Service};
use std::alloc::Global;

/// The leaves of a policy's two prefixes and of its services.
#[derive(Debug, Drop)]
pub struct Leaves {
    pub sources: List<Prefix>,
    pub destinations: List<Prefix>,
    pub services: List<Service>,
}

impl Leaves {
    /// The leaves of a policy under marks.
    pub fn of(alloc: Global, marks: &Marks, policy: &Policy) -> Result<Leaves, Memory>
        ensures sources { IfOk result (λ l.
            AreLeaves marks.now.sources.items policy.now.from l.sources) }
        ensures destinations { IfOk result (λ l.
            AreLeaves marks.now.destinations.items policy.now.to l.destinations) }
        ensures services { IfOk result (λ l.
            AreServiceLeaves marks.now.services.items policy.now.service l.services) }
    {
        let from = begin_inside(&marks.by_source, &policy.from);
        let sources = leaves_of(alloc, policy.from, from)?;
        let to = begin_inside(&marks.by_destination, &policy.to);
        let destinations = leaves_of(alloc, policy.to, to)?;
        let services = service_leaves_of(alloc, policy.service, &marks.services)?;
        Ok(Leaves {
            sources,
            destinations,
            services,
        })
    }

    /// The number of triples of a source, a destination and a service. It saturates at 64 bits.
    pub fn count(&self) -> u64
        ensures { result ≡ told
            (length self.now.sources * length self.now.destinations * length self.now.services) }
    {
        let pairs = u64::from(self.sources.len()) * u64::from(self.destinations.len());
        pairs.saturating_mul(u64::from(self.services.len()))
    }

    /// All triples of a source, a destination and a service, for each source in order.
    pub fn triples(&self, alloc: Global) -> Result<Vec<Class>, Memory>
        ensures { IfOk result (λ classes.
            classes.items ≡ all_triples self.now.sources self.now.destinations self.now.services) }
    {
        let mut classes = Vec::new(alloc);
        for source in self.sources.slice() {
            self.add_from(&mut classes, *source)?;
        }
        Ok(classes)
    }

    /// All triples of a source, a destination and a service, unless there are too many.
    pub fn few_triples(&self, alloc: Global) -> Result<List<Class>, ClassFault>
        ensures triples { IfOk result (λ classes.
            classes ≡ all_triples self.now.sources self.now.destinations self.now.services) }
        ensures few { IfOk result (λ classes. length classes ≤ CLASS_LIMIT) }
        ensures many { IfErr result (CountsMore (λ count.
            told (length (all_triples self.now.sources self.now.destinations self.now.services))
            ≡ count)) }
    {
        let count = self.count();
        if count > CLASS_LIMIT {
            return Err(ClassFault::TooMany(count));
        }
        Ok(List::of(self.triples(alloc)?)?)
    }

    /// Adds the triples of one source.
    fn add_from(&self, classes: &mut Vec<Class>, source: Prefix) -> Result<(), Memory>
        ensures { OnOk result (classes.new.items ≡ classes.old.items ++
            classes_from self.now.destinations self.now.services source) }
    {
        for destination in self.destinations.slice() {
            self.add_between(classes, source, *destination)?;
        }
        Ok(())
    }

    /// Adds the triples of one source and one destination.
    fn add_between(
        &self,
        classes: &mut Vec<Class>,
        source: Prefix,
        destination: Prefix,
    ) -> Result<(), Memory>
        ensures { OnOk result (classes.new.items ≡ classes.old.items ++
            classes_between self.now.services source destination) }
    {
        for service in self.services.slice() {
            classes.push(Class {
                from: source,
                to: destination,
                service: *service,
            })?;
        }
        Ok(())
    }
}
