//! Laws over the definitions alone: each is the contract of a function that does nothing.
ghost use Rattle.ios_lines.specs.ChangeLaws.{AnInsertedLineStands, AReplacedLineStands};
ghost use Rattle.ios_lines.specs.ChangeLaws.{BlocksHaveHeads, EndedLinesAreLines, EndedLinesJoin};
ghost use Rattle.ios_lines.specs.ChangeLaws.{EndedLinesPart, InnerLinesMayStand, RowsAreEnded};
ghost use Rattle.ios_lines.specs.ChangeLaws.{RowsAreSeen, RowsTellPlaces, SeveralChangesStand};
ghost use Rattle.ios_lines.specs.ChangeLaws.{TopLinesMayStand};
ghost use Rattle.ios_lines.specs.Laws.{BannersEndAtTheirDelimiter, LinesAreOneList, LinesJoin};
ghost use Rattle.ios_lines.specs.Rewritten.{AWordMayBeReplaced};
ghost use Rattle.ios_lines.specs.Written.{IndentedLinesAreInner, IndentedLinesAreWritten};
ghost use Rattle.ios_lines.specs.Written.{TopLinesAreWritten, TopLinesHaveTheirKind};

/// A text has at most one list of lines.
pub fn lines_are_one_list()
    ensures { LinesAreOneList }
{}

/// The lines of a text with their ends, joined, are the text.
pub fn lines_join()
    ensures { LinesJoin }
{}

/// A banner is open exactly from its first line to the next line in which its delimiter occurs.
pub fn banners_end_at_their_delimiter()
    ensures { BannersEndAtTheirDelimiter }
{}

/// The rows of a text say of each line its words, its block and its kind, as a fold over the lines
/// gives them.
pub fn rows_are_seen()
    ensures { RowsAreSeen }
{}

/// Lines with their ends make a text with these lines, and each text is made so.
pub fn ended_lines_make_texts()
    ensures lines { EndedLinesAreLines }
    ensures rows { RowsAreEnded }
    ensures join { EndedLinesJoin }
    ensures part { EndedLinesPart }
{}

/// The row of a line that says something shows that no banner is open at its place, and which block
/// is.
pub fn rows_tell_places()
    ensures { RowsTellPlaces }
{}

/// A text with one line more, at a place where it is allowed, can be cut, and its rows are the old
/// ones and the new line's, with the numbers of blocks moved.
pub fn an_inserted_line_stands()
    ensures { AnInsertedLineStands }
{}

/// A text in which a line takes the place of another of its kind can be cut, and its rows are the
/// old ones, with other words at that place.
pub fn a_replaced_line_stands()
    ensures { AReplacedLineStands }
{}

/// As above for several changes, each of the lines that those before it leave.
pub fn several_changes_stand()
    ensures { SeveralChangesStand }
{}

/// Words with one space before each, or between two, make a line with these words, of the kind that
/// they say.
pub fn written_lines_are_read()
    ensures indented { IndentedLinesAreWritten }
    ensures top { TopLinesAreWritten }
    ensures inner { IndentedLinesAreInner }
    ensures kind { TopLinesHaveTheirKind }
{}

/// Where a line is allowed that belongs to a block, and one that is outside or ends one.
pub fn lines_may_stand()
    ensures inner { InnerLinesMayStand }
    ensures top { TopLinesMayStand }
{}

/// A plain word may replace another: the line has the other words as before, and may replace the
/// old one.
pub fn a_word_may_be_replaced()
    ensures { AWordMayBeReplaced }
{}

/// Each row in a block has the row that heads it.
pub fn blocks_have_heads()
    ensures { BlocksHaveHeads }
{}
