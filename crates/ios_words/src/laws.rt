//! Laws over the definitions alone: each is the contract of a function that does nothing.
ghost use Rattle.ios_words.specs.Forms.{CommandsAreInForm, AllAddressesFit};
ghost use Rattle.ios_words.specs.Laws.{HeadsAreTopLines, AnswersAreOne, UnknownMatchesNone};
ghost use Rattle.ios_words.specs.Laws.{InertCounts};
ghost use Rattle.ios_words.specs.ListLines.{ListLinesAreTopLines, PrefixListsHaveOtherNames};
ghost use Rattle.ios_words.specs.Names.{NamesHaveTheirForm};
ghost use Rattle.ios_words.specs.Plain.{PlainLinesAreRead};
ghost use Rattle.ios_words.specs.Printed.{IsClosingLine};
ghost use Rattle.ios_words.specs.Renumbered.{EntriesMayBeRenumbered, PrefixLinesMayBeRenumbered};
ghost use Rattle.ios_words.specs.Renumbered.{NumberedLinesHaveSequences};
ghost use Rattle.ios_words.specs.Returns.{ReturnsSayNothing, HeadsHaveNoReturn};
ghost use Rattle.ios_words.specs.Writable.{ReadEntriesAreWritable};
ghost use Rattle.std.specs.Prelude.{codes};

/// A line reads as one command, or is unknown, or has one faulty word.
pub fn a_line_has_one_answer()
    ensures { AnswersAreOne }
{}

/// A line is unknown exactly where no row matches it.
pub fn an_unknown_line_matches_no_row()
    ensures { UnknownMatchesNone }
{}

/// An inert row counts where another row matches too.
pub fn an_inert_row_counts()
    ensures { InertCounts }
{}

/// The names and numbers of what a line says have their forms and ranges, and its addresses and
/// areas have 32 bits.
pub fn commands_are_in_form()
    ensures form { CommandsAreInForm }
    ensures addresses { AllAddressesFit }
{}

/// Words that pass the tests of names have the forms of names.
pub fn names_have_their_form()
    ensures { NamesHaveTheirForm }
{}

/// The plain line of a command is read as the command: it has the command's words, it heads a block
/// exactly where the command does, and the language gives just this command for its words in a
/// block of the kind that it belongs to. The line `!` closes a block.
pub fn plain_lines_are_read()
    ensures lines { PlainLinesAreRead }
    ensures closing { IsClosingLine (codes "!") }
{}

/// A line that is read as the head of a block is a top line, in whatever block it is looked for.
pub fn heads_are_top_lines()
    ensures { HeadsAreTopLines }
{}

/// An entry whose number is written anew is the same entry with that number. In a prefix list it is
/// the fifth word.
pub fn entries_may_be_renumbered()
    ensures packet { EntriesMayBeRenumbered }
    ensures route { PrefixLinesMayBeRenumbered }
    ensures sequence { NumberedLinesHaveSequences }
{}

/// In the blocks of interfaces and processes a line that ends with a carriage return says nothing,
/// and says the same where that carriage return is part of its end. No such line heads one of these
/// blocks.
pub fn returns_say_nothing()
    ensures lines { ReturnsSayNothing }
    ensures heads { HeadsHaveNoReturn }
{}

/// The lines of lists that are written as lines are read outside blocks alone, and open none; and
/// no prefix list has the name of a line that says nothing.
pub fn list_lines_are_top_lines()
    ensures top { ListLinesAreTopLines }
    ensures names { PrefixListsHaveOtherNames }
{}

/// The services of an entry of a packet list are all, all of one protocol, or ports of TCP or of
/// UDP: so they lie in one protocol or are all, and one entry can say them again.
pub fn entries_are_writable()
    ensures { ReadEntriesAreWritable }
{}
