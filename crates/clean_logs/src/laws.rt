//! Laws over the definitions alone.
ghost use Rattle.clean_logs.specs.Laws.{SpentLogsAreShort};

/// A log that is spent at its limit adds fewer clauses than there are clauses over the formula's
/// variables: 3 to their number, since each variable occurs in a clause, or is negated there, or is
/// not in it. So a limit that high is never reached for a small formula.
pub fn spent_logs_are_short()
    ensures { SpentLogsAreShort }
{}
