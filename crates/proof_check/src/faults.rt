//! Why a step of a proof log is not accepted.

use arc_base::Memory;

/// Why a step is not accepted. Places in the lists of hints and of dropped ids count from 0.
#[derive(Clone, Copy, Debug, PartialEq, Eq)]
pub enum StepFault {
    /// The id is not above every id before it.
    IdNotRising,
    /// The hint at this place is negative.
    NegativeHint(u32),
    /// The hint, or the dropped id, at this place is the id of no live clause.
    UnknownId(u32),
    /// The clause of the hint at this place has two different literals that are not known to be
    /// false.
    HintNotUnit(u32),
    /// No hint's clause has only literals that are known to be false.
    NoConflict,
    /// The bound is below the least allowed one.
    BoundTooLow,
    /// No literal says that the price is above the bound.
    BoundTooHigh,
    /// Out of memory.
    Memory,
}

impl From<Memory> for StepFault {
    ghost use Rattle.proof_check.specs.declared.faults.StepFault.TheVariants.{Memory};
    ghost use Rattle.std.specs.Prelude.{◌≡◌};

    ghost from_gives = { λ _ fault. fault ≡ Memory };

    fn from(_memory: Memory) -> StepFault {
        StepFault::Memory
    }
}
