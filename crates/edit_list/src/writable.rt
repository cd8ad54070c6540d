//! The classes for which one entry of a packet list can speak.
ghost use Rattle.edit_list.specs.EditLists.{writable_classes};
ghost use Rattle.edit_list.specs.Writable.{is_writable};
ghost use Rattle.std.specs.Prelude.{◌≡◌, IfOk};

use arc_base::Memory;
use net_model::{Class, Service};
use std::alloc::Global;

/// The number of services of one protocol.
const PORTS: u32 = 65_536;

/// Whether one entry of a packet list can say the range: all services, all of one protocol but 0,
/// or ports of TCP or of UDP.
pub fn is_writable(service: &Service) -> bool
    ensures { result ≡ is_writable service.now }
{
    let protocol = service.low / PORTS;
    let in_one = protocol == service.high / PORTS && 1 <= protocol && protocol <= 255;
    let all_of_it = service.low % PORTS == 0 && service.high % PORTS == PORTS - 1;
    let has_ports = protocol == 6 || protocol == 17;
    let all = Service::whole();
    service.low == all.low && service.high == all.high || in_one && (all_of_it || has_ports)
}

/// Those of the classes for which one entry of a packet list can speak, in their order.
pub fn writable_classes(alloc: Global, classes: &[Class]) -> Result<Vec<Class>, Memory>
    ensures { IfOk result (λ writable. writable.items ≡ writable_classes classes.now) }
{
    Ok(
        classes
            .iter()
            .filter(|c| is_writable(&c.service))
            .copied()
            .collect(alloc)?,
    )
}
