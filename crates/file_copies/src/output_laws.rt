//! Laws over the definitions alone: each is the contract of a function that does nothing.
ghost use Rattle.file_copies.specs.Outputs.{CopiesAreLeft};

/// After the copies of changed files are written, the new text of each file is there: under the
/// name of its copy if it changed, else under its own name.
pub fn copies_are_left()
    ensures { CopiesAreLeft }
{}
