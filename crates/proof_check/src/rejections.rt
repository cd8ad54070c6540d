//! Why a proof is rejected, and the outcomes of a proof.

use crate::faults::StepFault;

/// Why a line of a proof is rejected.
#[derive(Clone, Copy, Debug, PartialEq, Eq)]
pub enum Rejection {
    /// The line is no step, comment or empty line.
    Form,
    /// The step is not accepted.
    Fault(StepFault),
    /// No line is left, and none added the empty clause.
    NotRefuted,
}

/// The outcome of a proof.
#[derive(Clone, Copy, Debug, PartialEq, Eq)]
pub enum Outcome {
    /// Each step is accepted, and one adds the empty clause.
    Accepted,
    /// The first line that is rejected, counted from 1, and why. A proof that does not refute is
    /// rejected at the line after its last one.
    Rejected(u64, Rejection),
}
