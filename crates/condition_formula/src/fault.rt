//! Why there is no formula: too large, or out of memory.

use arc_base::{LimitKind, Memory};
use thiserror::Error;

/// Why `encode` gives no formula.
#[derive(Clone, Copy, Debug, PartialEq, Eq, Error)]
pub enum EncodeFault {
    /// A count exceeds its limit: which count, and its value.
    #[error("there are {1} of what is limited")]
    Limit(LimitKind, u64),
    /// Out of memory.
    #[error("out of memory")]
    Memory,
}

impl From<Memory> for EncodeFault {
    ghost use Rattle.std.specs.Prelude.{◌≡◌};
    ghost use Rattle.condition_formula.specs.declared.fault.EncodeFault.TheVariants as faults;

    ghost from_gives = { λ _ e. e ≡ faults.Memory };

    fn from(_memory: Memory) -> EncodeFault {
        EncodeFault::Memory
    }
}
