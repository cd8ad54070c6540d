//! Laws over the definitions alone: each is the contract of a function that does nothing.
ghost use Rattle.traffic_classes.specs.Halves.{UnsplitIsLeaf, HalvesHaveLeaves};
ghost use Rattle.traffic_classes.specs.Laws.{HasOneListOfLeaves, HasOneListOfClasses};
ghost use Rattle.traffic_classes.specs.Laws.{ClassesMakeUp, ClassesAreEqualOrDisjoint};
ghost use Rattle.traffic_classes.specs.Laws.{HaveOneListOfClasses, AllClassesTellApart};
ghost use Rattle.traffic_classes.specs.Laws.{EachHasNoMoreClasses};
ghost use Rattle.traffic_classes.specs.ServiceLeaves.{UncutIsLeaf, PartsHaveLeaves};
ghost use Rattle.traffic_classes.specs.ServiceLeaves.{HasOneListOfServiceLeaves};

/// Halving gives the leaves: a prefix that is split has those of its halves, and any other is its
/// own one leaf.
pub fn halving_gives_leaves()
    ensures unsplit { UnsplitIsLeaf }
    ensures halves { HalvesHaveLeaves }
    ensures one { HasOneListOfLeaves }
{}

/// Cutting gives the leaves of services: a range that is cut has those of its two parts, and any
/// other is its own one leaf.
pub fn cutting_gives_leaves()
    ensures uncut { UncutIsLeaf }
    ensures parts { PartsHaveLeaves }
    ensures one { HasOneListOfServiceLeaves }
{}

/// A policy has one list of classes. They make up its packets, and those of two policies are equal
/// or disjoint.
pub fn classes_make_up_policies()
    ensures one { HasOneListOfClasses }
    ensures make_up { ClassesMakeUp }
    ensures equal_or_disjoint { ClassesAreEqualOrDisjoint }
{}

/// Policies have one list of all their classes, which tells their packets apart, and no policy has
/// more classes than are in it.
pub fn all_classes_tell_packets_apart()
    ensures one { HaveOneListOfClasses }
    ensures apart { AllClassesTellApart }
    ensures no_more { EachHasNoMoreClasses }
{}
