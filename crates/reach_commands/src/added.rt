//! A policy besides those of the document: reach from one prefix to another.
ghost use Rattle.net_model.specs.Forwarding.{HasEnds};
ghost use Rattle.net_model.specs.Packets.{subject};
ghost use Rattle.net_model.specs.Validity.{IsValid};
ghost use Rattle.reach_commands.specs.Added.{reach_policy, AddsPolicy};
ghost use Rattle.std.specs.Prelude.{◌≡◌, IfOk};

use arc_base::{Kind, List, Name, Prefix};
use net_checks::has_endpoints;
use net_model::{Network, Policy, PolicyKind, Service};
use run_files::{Stop, refused};
use std::alloc::Global;

/// Reach of all services, under at most this many failures.
pub(crate) fn reach_policy(from: Prefix, to: Prefix, failures: u32) -> Policy
    ensures { result ≡ reach_policy from to failures }
{
    Policy {
        kind: PolicyKind::Reach(failures),
        from,
        to,
        service: Service::whole(),
    }
}

/// The policies with one more at the end. The document is refused if that one does not lead from a
/// host network to another.
pub(crate) fn with_policy(
    alloc: Global,
    document: &Name,
    net: &Network,
    mut policies: List<Policy>,
    policy: Policy,
) -> Result<List<Policy>, Stop>
    requires { IsValid net.now }
    ensures told { AddsPolicy document.now net.now policies policy result }
    ensures ends { IfOk result (λ judged. HasEnds net.now (subject policy)) }
{
    if !has_endpoints(net, policy.from, policy.to) {
        return Err(refused(alloc, document, 0, Kind::Endpoint));
    }
    if policies.len() == u32::MAX {
        return Err(Stop::Memory);
    }
    policies.push(policy)?;
    Ok(policies)
}
