//! Laws over the definitions alone: each is the contract of a function that does nothing.
ghost use Rattle.proof_check.specs.Logs.{AcceptedLogsAreSound};

/// An accepted log that adds the empty clause refutes the formula together with the bounds.
pub fn accepted_logs_are_sound()
    ensures { AcceptedLogsAreSound }
{}
