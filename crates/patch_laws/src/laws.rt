//! Laws over the definitions alone: each is the contract of a function that does nothing.
ghost use Rattle.patch_laws.specs.EditSiteLaws.{CommandsGrowByEdits, CommandsHaveListLines};
ghost use Rattle.patch_laws.specs.EditSiteLaws.{EditSitesAreGood, EditSitesAreThere};
ghost use Rattle.patch_laws.specs.EditSiteLaws.{EditedFilesAreFiles, EditedFilesAreSited};
ghost use Rattle.patch_laws.specs.EditSiteLaws.{EditedFilesHaveTheNetwork, EditedTextsCanBePatched};
ghost use Rattle.patch_laws.specs.EndLines.{FacesGrow, GroupLinesAreFit, ProcessLinesAreRead};
ghost use Rattle.patch_laws.specs.EndLines.{ProcessesGrow};
ghost use Rattle.patch_laws.specs.EntrySites.{BlockEntriesAreRead, EntriesAreRenumbered};
ghost use Rattle.patch_laws.specs.EntrySites.{ListEntriesAreRead, PrefixEntriesAreRead};
ghost use Rattle.patch_laws.specs.EntrySites.{PrefixLinesAreRenumbered, NumbersAreWords};
ghost use Rattle.patch_laws.specs.FaceBlocks.{FacesHaveBlocks};
ghost use Rattle.patch_laws.specs.Files.{FilesHaveTheNetwork, SitedFilesAreAfter};
ghost use Rattle.patch_laws.specs.Files.{SitedFilesHaveTheNetwork};
ghost use Rattle.patch_laws.specs.Laws.{GrownSettingsAreAfter, NewListsAreChunks};
ghost use Rattle.patch_laws.specs.Laws.{NewListsHaveTheirLines, NewListsSetThemselves};
ghost use Rattle.patch_laws.specs.Laws.{PatchedTextsHaveSites, SessionFilesHaveTheNetwork};
ghost use Rattle.patch_laws.specs.ListsGrow.{ListsGrow};

/// Files with lines at the ends of their processes that turn sessions have the network after the
/// edits.
pub fn session_files_have_the_network()
    ensures { SessionFilesHaveTheNetwork }
{}

/// A patched text is cut into its old lines with what is added before them and after them.
pub fn patched_texts_have_sites()
    ensures { PatchedTextsHaveSites }
{}

/// Commands with those of edits around them, and with new lists among them, set the settings after
/// the edits.
pub fn grown_settings_are_after()
    ensures { GrownSettingsAreAfter }
{}

/// The lines of new lists are allowed before the head of a process, and set these lists and nothing
/// else.
pub fn new_lists_are_chunks()
    ensures good { NewListsAreChunks }
    ensures lines { NewListsHaveTheirLines }
    ensures set { NewListsSetThemselves }
{}

/// The lines that edits add at the ends of processes and interfaces are read there as the commands
/// of the settings after the edits.
pub fn end_lines_are_read()
    ensures process { ProcessLinesAreRead }
    ensures binding { GroupLinesAreFit }
    ensures processes { ProcessesGrow }
    ensures faces { FacesGrow }
{}

/// Each interface that a file sets has its block among the file's commands.
pub fn faces_have_blocks()
    ensures { FacesHaveBlocks }
{}

/// The entries that edits add to lists are read as these entries, and an entry of an extended
/// list's block with another number as the entry that it was.
pub fn entries_are_read()
    ensures block { BlockEntriesAreRead }
    ensures list { ListEntriesAreRead }
    ensures prefix { PrefixEntriesAreRead }
    ensures renumbered { EntriesAreRenumbered }
    ensures sequence { PrefixLinesAreRenumbered }
    ensures number { NumbersAreWords }
{}

/// A list with the entries of edits before its old ones is the list of the settings after the
/// edits.
pub fn lists_grow()
    ensures { ListsGrow }
{}

/// Patched files to which good sites of their commands are added have the settings after the edits,
/// and all of them the network after the edits.
pub fn sited_files_have_the_network()
    ensures file { SitedFilesAreAfter }
    ensures files { FilesHaveTheNetwork }
    ensures network { SitedFilesHaveTheNetwork }
{}

/// What edits add to a router file is at its commands as good sites, with which the commands grow
/// as the edits make them.
pub fn edits_are_sites()
    ensures there { EditSitesAreThere }
    ensures can { EditedTextsCanBePatched }
    ensures good { EditSitesAreGood }
    ensures grown { CommandsGrowByEdits }
{}

/// The files after any edits of the list have the network after these edits.
pub fn edited_files_have_the_network()
    ensures lists { CommandsHaveListLines }
    ensures files { EditedFilesAreFiles }
    ensures sited { EditedFilesAreSited }
    ensures network { EditedFilesHaveTheNetwork }
{}
