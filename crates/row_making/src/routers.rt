//! The rows of routers.
ghost use Rattle.net_rules.specs.Rows.{IsRouterRow, asn_of};
ghost use Rattle.std.specs.List.{AllZip};
ghost use Rattle.std.specs.Prelude.{◌≡◌, ◌≤◌, List, IfOk, length, Some, None};

use crate::lists::list_names;
use arc_base::limits::ROUTER_LIMIT;
use arc_base::{List, Memory, Name};
use ios_config::Config;
use net_model::{Protocol, RouterRow};
use net_rules::{host_name, process_of};
use std::alloc::Global;

fn asn_of(protocol: Protocol, config: &Config) -> u32
    ensures { result ≡ asn_of protocol config.now }
{
    match protocol {
        Protocol::Ospf => 0,
        Protocol::Bgp => match process_of(config) {
            Some(process) => process.number,
            None => 0,
        },
    }
}

/// The row of the router of a file.
fn router_row(alloc: Global, protocol: Protocol, config: &Config) -> Result<RouterRow, Memory>
    ensures { IfOk result (IsRouterRow protocol config.now) }
{
    Ok(RouterRow {
        name: Name::make(alloc, host_name(config))?,
        asn: asn_of(protocol, config),
        names: list_names(alloc, config)?,
    })
}

/// The rows of the routers.
pub fn router_rows(
    alloc: Global,
    protocol: Protocol,
    configs: &List<Config>,
) -> Result<List<RouterRow>, Memory>
    requires { length configs.now ≤ ROUTER_LIMIT }
    ensures { IfOk result (AllZip (IsRouterRow protocol) configs.now) }
{
    let mut rows = List::make(alloc);
    for config in configs.slice() {
        rows.push(router_row(alloc, protocol, config)?)?;
    }
    Ok(rows)
}
