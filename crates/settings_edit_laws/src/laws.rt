//! Laws over the definitions alone: each is the contract of a function that does nothing.
ghost use Rattle.settings_edit_laws.specs.Laws.{EditsAreFitting, NetworksAreWritable};
ghost use Rattle.settings_edit_laws.specs.Laws.{SettingsHaveTheNetwork, ShortListsHaveRoom};
ghost use Rattle.settings_edit_laws.specs.Laws.{UntouchedFilesStay};

/// Files with the settings after edits are refused for no reason, and their network is the network
/// after the edits.
pub fn settings_have_the_network()
    ensures { SettingsHaveTheNetwork }
{}

/// The edits of a network for a document make new lists only where none is bound, and deny only
/// packets from host networks: so they never stop the routing protocol.
pub fn edits_are_fitting()
    ensures { EditsAreFitting }
{}

/// Where no list of the files has more than `EDITED_ENTRY_LIMIT` entries, no list has too many
/// after the edits.
pub fn short_lists_have_room()
    ensures { ShortListsHaveRoom }
{}

/// A file that is given unchanged, since no edit adds to it, has the settings after the edits.
pub fn untouched_files_stay()
    ensures { UntouchedFilesStay }
{}

/// Interfaces have names, and neighbours addresses, that can be written into lines of router files.
pub fn networks_are_writable()
    ensures { NetworksAreWritable }
{}
