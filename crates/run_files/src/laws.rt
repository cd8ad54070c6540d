//! A law over the definitions alone: the contract of a function that does nothing.
ghost use Rattle.run_files.specs.HandedOut.{LinesAreHandedOut};

/// The lines that a reader by lines hands out of a text, from its first to its end, are the lines
/// of the text.
pub fn lines_are_handed_out()
    ensures { LinesAreHandedOut }
{}
