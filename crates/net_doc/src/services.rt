//! The services of which a policy speaks.
ghost use Rattle.net_doc.specs.Services.{protocol_named, protocol_numbered, data_protocol};
ghost use Rattle.net_doc.specs.Services.{data_port};
ghost use Rattle.net_doc.specs.Services.{service_range_from, of_protocol, of_port, policy_services};
ghost use Rattle.serde_json.specs.View.{view};
ghost use Rattle.std.specs.Prelude.{◌≡◌, ◌≤◌, ◌+◌, ◌*◌, IfSome};

use net_model::Service;
use serde_json::Value;

/// The services by `proto` and `port`.
pub(crate) fn read_services(value: &Value) -> Option<Service>
    ensures { result ≡ policy_services (view value.now) }
{
    match value.get("proto") {
        None => match value.get("port") {
            None => Some(Service::whole()),
            Some(_) => None,
        },
        Some(proto) => {
            let protocol = read_protocol(proto)?;
            match value.get("port") {
                None => of_protocol(protocol),
                Some(port) => of_port(protocol, read_port(port)?),
            }
        }
    }
}

/// All services of the protocol.
fn of_protocol(protocol: u32) -> Option<Service>
    requires { protocol ≤ 255 }
    ensures { result ≡ of_protocol protocol }
{
    range(protocol * 0x1_0000, protocol * 0x1_0000 + 0xffff)
}

/// The one service for the port, where the protocol has ports: TCP and UDP have.
fn of_port(protocol: u32, port: u32) -> Option<Service>
    requires protocol { protocol ≤ 255 }
    requires port { port ≤ 65535 }
    ensures { result ≡ of_port protocol port }
{
    if protocol == 6 || protocol == 17 {
        range(protocol * 0x1_0000 + port, protocol * 0x1_0000 + port)
    } else {
        None
    }
}

fn range(low: u32, high: u32) -> Option<Service>
    ensures { result ≡ service_range_from low high }
{
    Service::new(low, high)
}

/// The protocol, by its name or its number (as IANA assigns them).
fn read_protocol(value: &Value) -> Option<u32>
    ensures value { result ≡ data_protocol (view value.now) }
    ensures few { IfSome result (λ protocol. protocol ≤ 255) }
{
    match value.as_str() {
        Some(name) => protocol_named(name),
        None => protocol_numbered(value.as_u64()?),
    }
}

fn protocol_named(name: &str) -> Option<u32>
    ensures value { result ≡ protocol_named name.now }
    ensures few { IfSome result (λ protocol. protocol ≤ 255) }
{
    match name {
        "tcp" => Some(6),
        "udp" => Some(17),
        "icmp" => Some(1),
        _ => None,
    }
}

fn protocol_numbered(number: u64) -> Option<u32>
    ensures value { result ≡ protocol_numbered number }
    ensures few { IfSome result (λ protocol. protocol ≤ 255) }
{
    if number >= 1 && number <= 255 {
        Some(number as u32)
    } else {
        None
    }
}

fn read_port(value: &Value) -> Option<u32>
    ensures value { result ≡ data_port (view value.now) }
    ensures few { IfSome result (λ port. port ≤ 65535) }
{
    let port = value.as_u64()?;
    if port <= 0xffff {
        Some(port as u32)
    } else {
        None
    }
}
