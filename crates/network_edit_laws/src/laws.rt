//! The laws of edits.
ghost use Rattle.network_edit_laws.specs.Acting.{PacketListsActWhereverBound};
ghost use Rattle.network_edit_laws.specs.Acting.{RouteListsActWhereverBound};
ghost use Rattle.network_edit_laws.specs.Turned.{NewClassesAreDenied, OtherPacketsArePermitted};
ghost use Rattle.network_edit_laws.specs.Turned.{NewPrefixesAreDenied, OtherPrefixesArePermitted};
ghost use Rattle.network_edit_laws.specs.Turned.{SessionsTurnByTheirEdit, ListsGetTheirEntries};

/// A new list denies what its edits name and permits all else. A session is turned, and a list gets
/// an entry, exactly where the edit of it is chosen.
pub fn edits_turn_their_own()
    ensures new_classes { NewClassesAreDenied }
    ensures other_packets { OtherPacketsArePermitted }
    ensures new_prefixes { NewPrefixesAreDenied }
    ensures other_prefixes { OtherPrefixesArePermitted }
    ensures sessions { SessionsTurnByTheirEdit }
    ensures entries { ListsGetTheirEntries }
{}

/// A list to which edits add entries acts with them wherever it is bound: at each interface,
/// inbound and outbound, and at each session it answers the opposite for what the entries are for,
/// and as before for all else.
pub fn bound_lists_act()
    ensures packets { PacketListsActWhereverBound }
    ensures routes { RouteListsActWhereverBound }
{}
