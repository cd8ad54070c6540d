//! Laws over the definitions alone: each is the contract of a function that does nothing.
ghost use Rattle.proof_log.specs.Texts.{LinesAreReadAgain};

/// Each line that is written is read as the step that it was written from.
pub fn lines_are_read_again()
    ensures { LinesAreReadAgain }
{}
