//! Edits, and why there is no list of them.

use arc_base::{Face, LimitKind, ListId, Memory, Prefix};
use net_model::Class;
use thiserror::Error;
use traffic_classes::ClassFault;

/// A modelled edit of router files.
#[derive(Clone, Copy, Debug, PartialEq, Eq)]
pub enum Edit {
    /// Turns the session of an interface on or off: under OSPF it becomes passive or active, under
    /// eBGP its neighbour is shut down or no longer is.
    Session(Face),
    /// Turns the answer of a route list for a host network, by an entry at its front.
    RouteList(ListId, Prefix),
    /// Denies a host network at a neighbour without a route list, in a new one.
    RouteNew(Face, Prefix),
    /// Turns the answer of an extended packet list for a class, by an entry at its front.
    PacketList(ListId, Class),
    /// Denies a class at an interface without an inbound packet list, in a new one.
    PacketNew(Face, Class),
}

/// Why there is no list of edits.
#[derive(Clone, Copy, Debug, PartialEq, Eq, Error)]
pub enum EditFault {
    /// There are this many classes, more than `CLASS_LIMIT`, or this many edits, more than
    /// `EDIT_LIMIT`.
    #[error("{1} pass the limit of {0:?}")]
    Limit(LimitKind, u64),
    /// Out of memory.
    #[error("out of memory")]
    Memory,
}

impl From<Memory> for EditFault {
    ghost use Rattle.std.specs.Prelude.{◌≡◌};
    ghost use Rattle.edit_list.specs.declared.edit_kinds.EditFault.TheVariants as faults;

    ghost from_gives = { λ _ e. e ≡ faults.Memory };

    fn from(_error: Memory) -> EditFault {
        EditFault::Memory
    }
}

impl From<ClassFault> for EditFault {
    ghost use Rattle.edit_list.specs.EditLists.{fault_of};
    ghost use Rattle.std.specs.Prelude.{◌≡◌};

    ghost from_gives = { λ fault e. e ≡ fault_of fault };

    fn from(fault: ClassFault) -> EditFault {
        match fault {
            ClassFault::TooMany(count) => EditFault::Limit(LimitKind::Classes, count),
            ClassFault::Memory => EditFault::Memory,
        }
    }
}
