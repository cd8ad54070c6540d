//! Laws over the definitions alone: each is the contract of a function that does nothing.
ghost use Rattle.line_edit_laws.specs.Grown.{CommandsGrow};
ghost use Rattle.line_edit_laws.specs.Laws.{EditedLinesAreRead};

/// A file with edits at its command lines says what its commands with these edits say.
pub fn edited_lines_are_read()
    ensures { EditedLinesAreRead }
{}

/// Commands around others join the groups of these, and new parts stay together among the old ones.
pub fn commands_grow()
    ensures { CommandsGrow }
{}
