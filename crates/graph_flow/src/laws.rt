//! Laws over the definitions alone: each is the contract of a function that does nothing.
ghost use Rattle.graph_flow.specs.Laws.{PathsOrCut, NotBoth, ReachedAreListed, HasOneLeastSide};

/// Either k link-disjoint paths lead from one node of a graph to another, or some set of nodes with
/// the one and without the other is left by arcs of fewer links. This is the theorem of Menger, for
/// links.
pub fn paths_or_cut()
    ensures either { PathsOrCut }
    ensures not_both { NotBoth }
{}

/// The nodes to which paths lead are those of a list.
pub fn reached_are_listed()
    ensures { ReachedAreListed }
{}

/// Between two nodes of a graph there is one least side: of the sides that the fewest links leave,
/// the one that lies in each of them.
pub fn least_sides_are_one()
    ensures { HasOneLeastSide }
{}
