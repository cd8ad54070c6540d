//! Counts that may exceed their limit: of the traffic classes of a document's policies, of its
//! edits, and of their formula.
ghost use Rattle.run_inputs.specs.Counts.{CountsClasses, StopsFor};

use arc_base::{Kind, LimitKind, List, Name};
use edit_list::EditFault;
use net_model::{Network, Policy};
use run_files::{Stop, refused};
use std::alloc::Global;
use traffic_classes::{ClassFault, all_classes};

/// Counts the traffic classes of the policies over the network, or refuses the document for more
/// than `CLASS_LIMIT`.
pub fn count_classes(
    alloc: Global,
    document: &Name,
    net: &Network,
    policies: &List<Policy>,
) -> Result<(), Stop>
    ensures { CountsClasses document.now net.now policies.now result }
{
    match all_classes(alloc, net, policies) {
        Ok(_) => Ok(()),
        Err(ClassFault::TooMany(count)) => {
            let kind = Kind::Limit(LimitKind::Classes, count);
            Err(refused(alloc, document, 0, kind))
        }
        Err(ClassFault::Memory) => Err(Stop::Memory),
    }
}

/// The stop for a fault in listing edits or making their formula: a count above its limit refuses
/// the document.
pub fn fault_stop(alloc: Global, document: &Name, fault: EditFault) -> Stop
    ensures { StopsFor document.now fault result }
{
    match fault {
        EditFault::Limit(what, count) => refused(alloc, document, 0, Kind::Limit(what, count)),
        EditFault::Memory => Stop::Memory,
    }
}
