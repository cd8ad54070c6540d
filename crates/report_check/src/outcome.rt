//! The outcome of judging a report.

use policy_report::CertFault;

/// The outcome of judging a report.
#[derive(Clone, Copy, Debug, PartialEq, Eq)]
pub enum Outcome {
    /// Each line is of its form, and each verdict is right.
    Accepted,
    /// The first line that is not of its form, or the first line of the first block whose verdict
    /// is not right.
    Rejected(CertFault),
}
