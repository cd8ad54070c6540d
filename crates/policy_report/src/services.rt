//! Services as words of a line: `service:P.N` for a service, `service:P.N-P.N` for a range of them.
//! P is the protocol (0 to 255, as IANA assigns them) and N the destination port (0 to 65,535). The
//! service 0 and the range of all services have no word.
ghost use Rattle.policy_report.specs.Lines.{after_spaces};
ghost use Rattle.policy_report.specs.ServiceWords.{service_text};
ghost use Rattle.policy_report.specs.ServiceWords.{is_whole, service_words, range_words};
ghost use Rattle.policy_report.specs.ServiceWords.{service_of, after_colon, service_named};
ghost use Rattle.policy_report.specs.ServiceWords.{range_from, range_named};
ghost use Rattle.std.specs.Prelude.{◌≡◌, ◌<◌, ◌^◌, ◌++◌, option_map, IfSome, OnOk};

use arc_base::{Memory, cut_at, push_number, read_number};
use net_model::Service;
use std::alloc::Global;

/// How many services a protocol has.
const PORTS: u32 = 65_536;

/// The protocol and the port of a service.
fn push_service(alloc: Global, text: &mut Vec<u8>, service: u32) -> Result<(), Memory>
    ensures { OnOk result (text.new.items ≡ text.old.items ++ service_text service) }
{
    push_number(alloc, text, u64::from(service / PORTS))?;
    text.push(b'.')?;
    push_number(alloc, text, u64::from(service % PORTS))
}

/// A packet's service, if it is not 0.
pub(crate) fn push_packet_service(
    alloc: Global,
    text: &mut Vec<u8>,
    service: u32,
) -> Result<(), Memory>
    ensures { OnOk result
        (text.new.items ≡ text.old.items ++ after_spaces (service_words service)) }
{
    if service == 0 {
        return Ok(());
    }
    text.extend_from_slice(b" service:")?;
    push_service(alloc, text, service)
}

/// Whether these are all services.
fn is_whole(range: &Service) -> bool
    ensures { result ≡ is_whole range.now }
{
    Service::whole().inside(range)
}

/// A class's services, if they are not all.
pub(crate) fn push_class_services(
    alloc: Global,
    text: &mut Vec<u8>,
    range: &Service,
) -> Result<(), Memory>
    ensures { OnOk result
        (text.new.items ≡ text.old.items ++ after_spaces (range_words range.now)) }
{
    if is_whole(range) {
        return Ok(());
    }
    text.extend_from_slice(b" service:")?;
    push_service(alloc, text, range.low)?;
    text.push(b'-')?;
    push_service(alloc, text, range.high)
}

/// Parses a service.
fn service_of(text: &[u8]) -> Option<u32>
    ensures value { result ≡ service_of text.now }
    ensures bits { IfSome result (λ service. service < 2 ^ 24) }
{
    let (protocol, port) = cut_at(text, b'.')?;
    let protocol = read_number(protocol)?;
    let port = read_number(port)?;
    if protocol <= 255 && port <= 65_535 {
        Some(protocol as u32 * PORTS + port as u32)
    } else {
        None
    }
}

/// What a word says after `service:`.
fn after_colon(word: &[u8]) -> Option<&[u8]>
    ensures { option_map (λ rest. rest.now) result ≡ after_colon word.now }
{
    let (first, rest) = cut_at(word, b':')?;
    if first == b"service".as_slice() {
        Some(rest)
    } else {
        None
    }
}

/// The service of a packet that the word names, if it names one.
pub(crate) fn service_named(word: &[u8]) -> Option<u32>
    ensures { result ≡ service_named word.now }
{
    let service = service_of(after_colon(word)?)?;
    if service == 0 { None } else { Some(service) }
}

/// The range from the one service to the other, if there is one.
fn range_from(low: u32, high: u32) -> Option<Service>
    ensures { result ≡ range_from low high }
{
    Service::new(low, high)
}

/// The services of a class that the word names, if it names a range of them.
pub(crate) fn range_named(word: &[u8]) -> Option<Service>
    ensures { result ≡ range_named word.now }
{
    let (low, high) = cut_at(after_colon(word)?, b'-')?;
    let low = service_of(low)?;
    let high = service_of(high)?;
    let range = range_from(low, high)?;
    if is_whole(&range) { None } else { Some(range) }
}
