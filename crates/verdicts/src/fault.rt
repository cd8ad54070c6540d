//! Why there is no verdict.

use arc_base::Memory;
use thiserror::Error;
use traffic_classes::ClassFault;

/// Why there is no verdict.
#[derive(Clone, Copy, Debug, PartialEq, Eq, Error)]
pub enum JudgeFault {
    /// The policy has this many traffic classes, more than `CLASS_LIMIT`.
    #[error("{0} traffic classes are too many")]
    TooMany(u64),
    /// Out of memory.
    #[error("out of memory")]
    Memory,
}

impl From<Memory> for JudgeFault {
    ghost use Rattle.std.specs.Prelude.{◌≡◌};
    ghost use Rattle.verdicts.specs.declared.fault.JudgeFault.TheVariants as faults;

    ghost from_gives = { λ _ e. e ≡ faults.Memory };

    fn from(_error: Memory) -> JudgeFault {
        JudgeFault::Memory
    }
}

impl From<ClassFault> for JudgeFault {
    ghost use Rattle.std.specs.Prelude.{◌≡◌};
    ghost use Rattle.verdicts.specs.Judged.{fault_of};

    ghost from_gives = { λ fault e. e ≡ fault_of fault };

    fn from(fault: ClassFault) -> JudgeFault {
        match fault {
            ClassFault::TooMany(count) => JudgeFault::TooMany(count),
            ClassFault::Memory => JudgeFault::Memory,
        }
    }
}
