//! The one routing process of a file, its lines, and the protocol of the network.
ghost use Rattle.net_rules.specs.Routers.{protocol_of, protocol_of_kind};
ghost use Rattle.net_rules.specs.Settings.{process_of, lines_of};
ghost use Rattle.std.specs.Option.{option_copied};
ghost use Rattle.std.specs.Prelude.{◌≡◌};

use arc_base::List;
use ios_config::{Config, Given, ProcessKind, ProcessText};
use ios_words::Command;
use net_model::Protocol;

/// The reference bandwidth of a process in which no line sets it, in Mbit/s.
pub const DEFAULT_REFERENCE: u32 = 100;

/// The file's one process, which is its first.
pub fn process_of(config: &Config) -> Option<&ProcessText>
    ensures { option_copied result ≡ process_of config.now }
{
    config.process.get(0)
}

/// The lines of the process.
pub fn lines_of(config: &Config) -> &[Given<Command>]
    ensures { result.now ≡ lines_of config.now }
{
    match process_of(config) {
        Some(process) => process.lines.slice(),
        None => &[],
    }
}

/// The protocol that a process runs.
pub fn protocol_of_kind(kind: ProcessKind) -> Protocol
    ensures { result ≡ protocol_of_kind kind }
{
    match kind {
        ProcessKind::Ospf => Protocol::Ospf,
        ProcessKind::Bgp => Protocol::Bgp,
    }
}

/// The protocol of the network.
pub fn protocol_of(configs: &List<Config>) -> Protocol
    ensures { result ≡ protocol_of configs.now }
{
    match configs.get(0) {
        None => Protocol::Ospf,
        Some(config) => match process_of(config) {
            None => Protocol::Ospf,
            Some(process) => protocol_of_kind(process.kind),
        },
    }
}
