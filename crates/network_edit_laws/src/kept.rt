//! Laws of what edits keep, and of entries at the front of lists.
ghost use Rattle.network_edit_laws.specs.Kept.{HostsStay, EndsStay, ClassesStay, AllClassesStay};
ghost use Rattle.network_edit_laws.specs.Kept.{ListsStayUniform};
ghost use Rattle.network_edit_laws.specs.Laws.{ClassesTurn, OthersStay, PrefixesTurn};
ghost use Rattle.network_edit_laws.specs.Laws.{OtherPrefixesStay};
ghost use Rattle.network_edit_laws.specs.Laws.{NoEditsChangeNothing, NoEditsCostNothing};
ghost use Rattle.network_edit_laws.specs.Laws.{PacketEditsAreWritable, ChosenClassesAreWritable};

/// An entry at the front of a list turns its answer for the packets of its class, or for its
/// prefix, and for no others.
pub fn entries_turn_answers()
    ensures classes { ClassesTurn }
    ensures other_packets { OthersStay }
    ensures prefixes { PrefixesTurn }
    ensures other_prefixes { OtherPrefixesStay }
{}

/// No edits change nothing, and cost nothing.
pub fn no_edits_change_nothing()
    ensures network { NoEditsChangeNothing }
    ensures price { NoEditsCostNothing }
{}

/// After edits for a document the network has the same host networks, its policies keep their ends
/// and their traffic classes, and each packet list is uniform on each of these.
pub fn edits_keep_classes()
    ensures hosts { HostsStay }
    ensures ends { EndsStay }
    ensures classes { ClassesStay }
    ensures all_classes { AllClassesStay }
    ensures uniform { ListsStayUniform }
{}

/// The packet edits of a document are for those of its classes for which one entry can speak.
pub fn packet_edits_are_writable()
    ensures listed { PacketEditsAreWritable }
    ensures chosen { ChosenClassesAreWritable }
{}
