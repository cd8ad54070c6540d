//! The limits of what a router file counts.
ghost use Rattle.net_rules.specs.Limits.{RefusesInterfaces, RefusesEntries, long_list};
ghost use Rattle.net_rules.specs.Reasons.{TriedAlone};
ghost use Rattle.std.specs.Option.{option_copied};
ghost use Rattle.std.specs.Prelude.{◌≡◌, ◌≤◌, length};

use arc_base::limits::{INTERFACE_LIMIT, ROUTER_LIMIT};
use arc_base::{Kind, LimitKind, List};
use ios_config::{Config, ListText};
use net_doc::NetFault;
use net_rules::in_file;

/// Checks whether no router has too many interfaces.
pub fn try_interfaces(configs: &List<Config>) -> Result<(), NetFault>
    requires { length configs.now ≤ ROUTER_LIMIT }
    ensures { TriedAlone (RefusesInterfaces configs.now) result }
{
    for (place, config) in configs.slice().iter().enumerate() {
        let count = config.faces.len();
        if count > INTERFACE_LIMIT {
            let kind = Kind::Limit(LimitKind::Interfaces, u64::from(count));
            return Err(in_file(place, 0, kind));
        }
    }
    Ok(())
}

/// The first list of the file with more than `most_entries` entries.
fn long_list(config: &Config, most_entries: u32) -> Option<&ListText>
    ensures { option_copied result ≡ long_list most_entries config.now }
{
    config
        .lists
        .slice()
        .iter()
        .find(|list| list.entries.len() > most_entries)
}

/// Checks whether no list has more than `most_entries` entries.
pub fn try_entries(configs: &List<Config>, most_entries: u32) -> Result<(), NetFault>
    requires { length configs.now ≤ ROUTER_LIMIT }
    ensures { TriedAlone (RefusesEntries most_entries configs.now) result }
{
    for (place, config) in configs.slice().iter().enumerate() {
        if let Some(list) = long_list(config, most_entries) {
            let kind = Kind::Limit(LimitKind::Entries, u64::from(list.entries.len()));
            return Err(in_file(place, 0, kind));
        }
    }
    Ok(())
}
