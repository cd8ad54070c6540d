//! Laws over the definitions alone: each is the contract of a function that does nothing.
ghost use Rattle.ios_config.specs.Appended.{ALineIsAppended};
ghost use Rattle.ios_config.specs.Bare.{ACommandJoinsOneGroup, ANewGroupSetsItsOwn};
ghost use Rattle.ios_config.specs.Bare.{BareGroupsSetTheSame, OneGroupSetsOther, TheHostnameStays};
ghost use Rattle.ios_config.specs.Effects.{AFirstEntryIsTheLists, AFirstListLineIsTheLists};
ghost use Rattle.ios_config.specs.Effects.{AFirstPrefixLineIsTheLists, ALastBindingIsSet};
ghost use Rattle.ios_config.specs.Effects.{ALastLineIsTheProcesss, CommandsAreSplit, NoNumbersRise};
ghost use Rattle.ios_config.specs.Effects.{PlacesRise, SilentCommandsClashWithNone};
ghost use Rattle.ios_config.specs.Effects.{StillStandsOnce};
ghost use Rattle.ios_config.specs.HeadBlocks.{HeadsStandInTheirBlocks};
ghost use Rattle.ios_config.specs.Inserted.{AClosingLineAddsNone, AHeadAddsItsCommand};
ghost use Rattle.ios_config.specs.Inserted.{AnInnerLineAddsItsCommand, ASingleLineAddsItsCommand};
ghost use Rattle.ios_config.specs.Inserted.{CommandsAreOfMarks};
ghost use Rattle.ios_config.specs.Joined.{ACommandBeginsItsGroup, ACommandJoinsItsGroup};
ghost use Rattle.ios_config.specs.Laws.{HasNoConfigWhereRefused, HasOneConfig, HasOneRefusal};
ghost use Rattle.ios_config.specs.LineLists.{AClosingLineIsIn, AHeadIsIn, ALineIsAppendedIn};
ghost use Rattle.ios_config.specs.LineLists.{ALineIsPutBeforeIn, AnInnerLineIsIn, ASingleLineIsIn};
ghost use Rattle.ios_config.specs.LineLists.{ASingleLineIsPutBeforeIn, CommandsAreOfLines};
ghost use Rattle.ios_config.specs.Prepended.{ALineIsPutBefore};
ghost use Rattle.ios_config.specs.ProcessLines.{ProcessesHaveBlocks, ProcessLinesAreAppended};
ghost use Rattle.ios_config.specs.Replaced.{AReplacedLineHasAnotherCommand};
ghost use Rattle.ios_config.specs.ReplacedIn.{AReplacedLineIsIn};

/// The lines of a text give at most one configuration.
pub fn config_is_unique()
    ensures { HasOneConfig }
{}

/// A file has one first refusal at most, and no settings if it has one.
pub fn refusal_is_unique()
    ensures one { HasOneRefusal }
    ensures alone { HasNoConfigWhereRefused }
{}

/// The commands of a text are seen from what its rows say.
pub fn commands_are_of_marks()
    ensures { CommandsAreOfMarks }
{}

/// A line that is inserted where it is allowed adds its command to those of the file, in the block
/// that is open there, and leaves the others, except for their numbers.
pub fn an_inserted_line_adds_its_command()
    ensures inner { AnInnerLineAddsItsCommand }
    ensures head { AHeadAddsItsCommand }
    ensures single { ASingleLineAddsItsCommand }
    ensures closing { AClosingLineAddsNone }
{}

/// Commands are split into those before a place and those after it, and one more comes between
/// them.
pub fn commands_are_split()
    ensures { CommandsAreSplit }
{}

/// One command more joins the group of its part or begins one; the other groups stay.
pub fn one_group_changes()
    ensures joins { ACommandJoinsItsGroup }
    ensures one { ACommandJoinsOneGroup }
    ensures begins { ACommandBeginsItsGroup }
{}

/// What a file sets, except for the numbers of its lines, is what its groups set one by one; so one
/// command more changes what its own group sets, and nothing else.
pub fn one_group_sets_other()
    ensures bare { BareGroupsSetTheSame }
    ensures joined { OneGroupSetsOther }
    ensures new { ANewGroupSetsItsOwn }
    ensures hostname { TheHostnameStays }
{}

/// What one command more does to a process, an interface or a list.
pub fn one_command_sets_its_own()
    ensures process { ALastLineIsTheProcesss }
    ensures binding { ALastBindingIsSet }
    ensures entry { AFirstEntryIsTheLists }
    ensures list_line { AFirstListLineIsTheLists }
    ensures prefix_line { AFirstPrefixLineIsTheLists }
{}

/// One command more is not refused: nothing occurs twice, and the numbers of entries rise that are
/// numbered by their places.
pub fn one_command_is_not_refused()
    ensures once { StillStandsOnce }
    ensures silent { SilentCommandsClashWithNone }
    ensures places { PlacesRise }
    ensures none { NoNumbersRise }
{}

/// A line that is written anew has the command that its new words are read as, and the other lines
/// have theirs.
pub fn a_replaced_line_has_another_command()
    ensures { AReplacedLineHasAnotherCommand }
{}

/// A line that is added after the last command line of a block is that block's last command: the
/// new text can be cut, its commands are the old ones and this one, and what it changes is what the
/// block sets.
pub fn a_line_is_appended()
    ensures { ALineIsAppended }
{}

/// A line of a block that is added before another line of it is a command of that block, and
/// changes what the block sets and nothing else.
pub fn a_line_is_put_before()
    ensures { ALineIsPutBefore }
{}

/// As above over lists of lines, by which several lines are added to a text one after another.
pub fn lines_are_put_one_by_one()
    ensures commands { CommandsAreOfLines }
    ensures inner { AnInnerLineIsIn }
    ensures head { AHeadIsIn }
    ensures single { ASingleLineIsIn }
    ensures closing { AClosingLineIsIn }
    ensures appended { ALineIsAppendedIn }
    ensures before { ALineIsPutBeforeIn }
    ensures single_before { ASingleLineIsPutBeforeIn }
    ensures replaced { AReplacedLineIsIn }
{}

/// Lines that are added one after another at the end of the file's one process are its last lines,
/// in their order; nothing else that the file sets changes, and nothing occurs twice that did not.
pub fn process_lines_are_appended()
    ensures appended { ProcessLinesAreAppended }
    ensures blocks { ProcessesHaveBlocks }
{}

/// A command that heads a block which is read is in the block of its own number.
pub fn heads_stand_in_their_blocks()
    ensures { HeadsStandInTheirBlocks }
{}
