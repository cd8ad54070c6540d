//! Laws over the definitions alone: each is the contract of a function that does nothing.
ghost use Rattle.report_check.specs.Lengths.{RightReportsAreShort};
ghost use Rattle.report_check.specs.Outcomes.{ReportsAreAccepted, ReportHasOneOutcome};

/// A text is accepted exactly if it is a report of right verdicts.
pub fn reports_are_accepted()
    ensures { ReportsAreAccepted }
{}

/// A text has one outcome.
pub fn outcome_is_unique()
    ensures { ReportHasOneOutcome }
{}

/// A report of right verdicts with few lines each has at most `limits::PROOF_LIMIT` bytes.
pub fn right_reports_are_short()
    ensures { RightReportsAreShort }
{}
