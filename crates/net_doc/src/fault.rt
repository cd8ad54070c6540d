//! Refusals with their places, and why there is no document or network.

use arc_base::{Kind, Memory};
use std::alloc::{AllocError, AllocFailed};
use thiserror::Error;

/// Why input is refused, and where.
#[derive(Clone, Copy, Debug, PartialEq, Eq)]
pub struct Refusal {
    /// 0 for the document, and i for the i-th router file.
    pub file: u32,
    /// The line of the file, or the number of the document's link or policy, counted from 1; 0
    /// where none applies.
    pub number: u32,
    pub kind: Kind,
}

/// Why there is no document or no network.
#[derive(Clone, Copy, Debug, PartialEq, Eq, Error)]
pub enum NetFault {
    /// The first refusal of the input.
    #[error("the input is refused")]
    Refused(Refusal),
    /// Out of memory.
    #[error("there is not enough memory")]
    Memory,
}

impl From<Memory> for NetFault {
    ghost use Rattle.std.specs.Prelude.{◌≡◌};
    ghost use Rattle.net_doc.specs.declared.fault.NetFault.TheVariants as faults;

    ghost from_gives = { λ _ e. e ≡ faults.Memory };

    fn from(_error: Memory) -> NetFault {
        NetFault::Memory
    }
}

impl From<AllocError> for NetFault {
    ghost use Rattle.std.specs.Prelude.{◌≡◌};
    ghost use Rattle.net_doc.specs.declared.fault.NetFault.TheVariants as faults;

    ghost from_gives = { λ _ e. e ≡ faults.Memory };

    fn from(_error: AllocError) -> NetFault {
        NetFault::Memory
    }
}

impl<T: Drop> From<AllocFailed<T>> for NetFault {
    ghost use Rattle.std.specs.Prelude.{◌≡◌};
    ghost use Rattle.net_doc.specs.declared.fault.NetFault.TheVariants as faults;

    ghost from_gives = { λ _ e. e ≡ faults.Memory };

    fn from(_error: AllocFailed<T>) -> NetFault {
        NetFault::Memory
    }
}
