//! Collecting the marks of a network and its policies.
ghost use Rattle.net_model.specs.declared.lists.PacketEntry.{PacketEntry};
ghost use Rattle.net_model.specs.declared.policies.Policy.{Policy};
ghost use Rattle.std.specs.List.{flat_map};
ghost use Rattle.std.specs.Prelude.{◌≡◌, ◌++◌, ◌<◌, ◌^◌, map, IfOk, OnOk};
ghost use Rattle.traffic_classes.specs.Classes.{AreMarks, marks_of, whole_protocol, source_marks};
ghost use Rattle.traffic_classes.specs.Classes.{destination_marks, service_marks};

use crate::marks::Marks;
use crate::sorted_marks::sorted;
use arc_base::{List, Memory, Prefix};
use net_model::{Network, PacketEntry, Policy, Service};
use std::alloc::Global;

/// How many services a protocol has, one for each port.
const PORTS: u32 = 0x1_0000;

/// All services of the protocol of this one.
fn whole_protocol(service: u32) -> Service
    requires { service < 2 ^ 24 }
    ensures { (within : service < 2 ^ 24) → result ≡ whole_protocol service within }
{
    let low = service / PORTS * PORTS;
    Service {
        low,
        high: low + (PORTS - 1),
    }
}

/// Adds the marks that a range of services gives.
fn add_service(marks: &mut Vec<Service>, service: &Service) -> Result<(), Memory>
    ensures { OnOk result (marks.new.items ≡ marks.old.items ++ marks_of service.now) }
{
    marks.push(*service)?;
    if service.low % PORTS != 0 {
        marks.push(whole_protocol(service.low))?;
    }
    if service.high % PORTS != PORTS - 1 {
        marks.push(whole_protocol(service.high))?;
    }
    Ok(())
}

impl Marks {
    /// The marks of a network with its policies.
    pub fn of(alloc: Global, net: &Network, policies: &List<Policy>) -> Result<Marks, Memory>
        ensures { IfOk result (AreMarks net.now policies.now) }
    {
        let Gathered {
            sources,
            destinations,
            services,
        } = Gathered::of(alloc, net, policies)?;
        let by_source = sorted(alloc, &sources)?;
        let by_destination = sorted(alloc, &destinations)?;
        Ok(Marks {
            sources,
            destinations,
            services,
            by_source,
            by_destination,
        })
    }
}

/// Marks in the order in which they are found.
#[derive(Debug, Drop)]
struct Gathered {
    sources: Vec<Prefix>,
    destinations: Vec<Prefix>,
    services: Vec<Service>,
}

impl Gathered {
    /// The marks of a network with its policies.
    fn of(alloc: Global, net: &Network, policies: &List<Policy>) -> Result<Gathered, Memory>
        ensures sources { IfOk result (λ marks.
            marks.sources.items ≡ source_marks net.now policies.now) }
        ensures destinations { IfOk result (λ marks.
            marks.destinations.items ≡ destination_marks net.now policies.now) }
        ensures services { IfOk result (λ marks.
            marks.services.items ≡ service_marks net.now policies.now) }
    {
        let mut marks = Gathered {
            sources: Vec::new(alloc),
            destinations: Vec::new(alloc),
            services: Vec::new(alloc),
        };
        for list in net.packet_lists.slice() {
            marks.add_entries(list.entries.slice())?;
        }
        marks.add_policies(policies.slice())?;
        Ok(marks)
    }

    /// Adds the marks of entries.
    fn add_entries(&mut self, entries: &[PacketEntry]) -> Result<(), Memory>
        ensures sources { OnOk result
            (self.new.sources.items ≡ self.old.sources.items ++ map (λ e. e.from) entries.now) }
        ensures destinations { OnOk result (self.new.destinations.items
            ≡ self.old.destinations.items ++ map (λ e. e.to) entries.now) }
        ensures services { OnOk result (self.new.services.items ≡ self.old.services.items ++
            flat_map (λ e. marks_of e.service) entries.now) }
    {
        for entry in entries {
            self.sources.push(entry.from)?;
            self.destinations.push(entry.to)?;
            add_service(&mut self.services, &entry.service)?;
        }
        Ok(())
    }

    /// Adds the marks of policies.
    fn add_policies(&mut self, policies: &[Policy]) -> Result<(), Memory>
        ensures sources { OnOk result
            (self.new.sources.items ≡ self.old.sources.items ++ map (λ p. p.from) policies.now) }
        ensures destinations { OnOk result (self.new.destinations.items
            ≡ self.old.destinations.items ++ map (λ p. p.to) policies.now) }
        ensures services { OnOk result (self.new.services.items ≡ self.old.services.items ++
            flat_map (λ p. marks_of p.service) policies.now) }
    {
        for policy in policies {
            self.sources.push(policy.from)?;
            self.destinations.push(policy.to)?;
            add_service(&mut self.services, &policy.service)?;
        }
        Ok(())
    }
}
