//! The kinds of rejection of a certificate or a proof.

/// Why a certificate or a proof is rejected. Each kind is printed as one word, in lower case with
/// hyphens; `Memory` is never printed.
#[derive(Clone, Copy, Debug, PartialEq, Eq)]
pub enum CertKind {
    /// The line is not of a form that is allowed there.
    Form,
    /// The text ends before its line `end`, or lines follow that line.
    NoEnd,
    /// The answer is that the budget was used up, which claims nothing.
    NoClaim,
    /// An edit line names no edit, or one that does not come after the one before.
    Edit,
    /// The price of the edits is not the one claimed, or one of the two passes its bound.
    Price,
    /// A block's number or kind is not the next policy's, or a block is missing.
    Policy,
    /// The witness does not show the verdict.
    Witness,
    /// A verdict of a repair is not a yes.
    NotYes,
    /// The identifier of a step is not above every one before it.
    IdNotRising,
    /// A hint is negative.
    NegativeHint,
    /// A hint, or a clause to drop, is no clause that is there.
    UnknownId,
    /// The clause of a hint has more than one literal left.
    HintNotUnit,
    /// The hints end before a clause is false.
    NoConflict,
    /// A bound is below the least that the claim allows.
    BoundTooLow,
    /// A bound is above the greatest price.
    BoundTooHigh,
    /// The claim needs an empty clause, and none was accepted.
    NotRefuted,
    /// Out of memory.
    Memory,
}
