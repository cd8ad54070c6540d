//! Why there are no classes: too many, or out of memory.

use arc_base::Memory;
use thiserror::Error;

/// Why there are no traffic classes.
#[derive(Clone, Copy, Debug, PartialEq, Eq, Error)]
pub enum ClassFault {
    /// There are this many, more than `CLASS_LIMIT`. The number saturates at 64 bits.
    #[error("{0} traffic classes are too many")]
    TooMany(u64),
    /// Out of memory.
    #[error("out of memory")]
    Memory,
}

impl From<Memory> for ClassFault {
    ghost use Rattle.std.specs.Prelude.{◌≡◌};
    ghost use Rattle.traffic_classes.specs.declared.fault.ClassFault.TheVariants as faults;

    ghost from_gives = { λ _ e. e ≡ faults.Memory };

    fn from(_error: Memory) -> ClassFault {
        ClassFault::Memory
    }
}
