//! What a policy asks, in words.

use net_model::{Policy, PolicyKind, Service};
use std::alloc::{AllocError, Global};
use std::net::Ipv4Addr;

/// The number of services of one protocol.
const PORTS: u32 = 65_536;

/// The services of a policy of a document, in words: those of one protocol, or of one of its ports;
/// empty if it has all of them.
fn services(alloc: Global, service: &Service) -> Result<String, AllocError> {
    let (protocol, port) = (service.low / PORTS, service.low % PORTS);
    if protocol != service.high / PORTS {
        return Ok(String::new(alloc));
    }
    let of = match protocol {
        6 => format!(in alloc; " of TCP")?,
        17 => format!(in alloc; " of UDP")?,
        _ => format!(in alloc; " of protocol {protocol}")?,
    };
    if service.low < service.high {
        return Ok(of);
    }
    format!(in alloc; "{of} and port {port}")
}

/// How many links may have failed, in words.
fn failed_links(alloc: Global, failures: u32) -> Result<String, AllocError> {
    match failures {
        0 => String::from_str(alloc, "no link has failed"),
        1 => String::from_str(alloc, "at most one link has failed"),
        _ => format!(in alloc; "at most {failures} links have failed"),
    }
}

/// What the policy asks, in words.
pub fn policy_words(alloc: Global, policy: &Policy) -> Result<String, AllocError> {
    let services = services(alloc, &policy.service)?;
    let from = Ipv4Addr::from_bits(policy.from.addr);
    let to = Ipv4Addr::from_bits(policy.to.addr);
    let ends = format!(in alloc; "from {from}/{} to {to}/{}", policy.from.len, policy.to.len)?;
    match policy.kind {
        PolicyKind::Blocked => format!(in alloc; "no packet{services} {ends} arrives"),
        PolicyKind::Through => {
            format!(in alloc; "each packet{services} {ends} that arrives has crossed a waypoint")
        }
        PolicyKind::Reach(failures) => {
            let failed = failed_links(alloc, failures)?;
            format!(in alloc; "each packet{services} {ends} arrives while {failed}")
        }
    }
}
