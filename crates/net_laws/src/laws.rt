//! Laws over the definitions alone: each is the contract of a function that does nothing.
ghost use Rattle.net_laws.specs.Breaking.{HoldsUnderEach, RightNosBreak};
ghost use Rattle.net_laws.specs.Examples.{ExampleIsValid, BothWaysRouted, DistancesAreStable};
ghost use Rattle.net_laws.specs.Examples.{OnePathIsRight, OneCutIsRight, OneWalkIsRight};
ghost use Rattle.net_laws.specs.Laws.{HasOneStableMap, ClosedSidesBlock, ClosedSidesForceThrough};
ghost use Rattle.net_laws.specs.Laws.{RightWalksAreDelivered, RightWalksUnblock, RightWalksBypass};
ghost use Rattle.net_laws.specs.Laws.{RightPathsReach, RefusalsAreRight, HasStableMap};
ghost use Rattle.net_laws.specs.Laws.{RightCutsSeparate, RightCutsBreakReach};
ghost use Rattle.net_laws.specs.Laws.{RightDenialsBreakReach, HasOnePairOfEnds};
ghost use Rattle.net_laws.specs.Laws.{RightVerdictsAreTrue, RightVerdictsDecide};
ghost use Rattle.net_laws.specs.Routes.{RoutesDecide, RoutesDecideAllUp};
ghost use Rattle.net_laws.specs.Square.{SquareDistancesAreStable, SquareRefusalIsRight};
ghost use Rattle.net_laws.specs.Square.{SquareDeliversNone, SquareIsNotBlocked, SquareWalkIsRight};
ghost use Rattle.net_model.specs.Validity.{IsValid};
ghost use Rattle.net_model.specs.declared.rows.Network.{Network};

/// For a host network and a failure set there is one stable map.
pub fn stable_map_is_unique()
    ensures exists { (net : Network) → IsValid net → HasStableMap net }
    ensures unique { (net : Network) → IsValid net → HasOneStableMap net }
{}

/// Right closed sides show that a policy holds.
pub fn closed_sides_are_right()
    ensures blocked { ClosedSidesBlock }
    ensures through { ClosedSidesForceThrough }
{}

/// With all links failed but those of a right walk, the walk is delivered. So it shows that a
/// policy does not hold.
pub fn walks_are_right()
    ensures delivered { RightWalksAreDelivered }
    ensures blocked { RightWalksUnblock }
    ensures through { RightWalksBypass }
{}

/// Right paths show that a reach policy holds, and a right refusal shows that it is not clear.
pub fn paths_are_right()
    ensures reach { RightPathsReach }
    ensures refused { RefusalsAreRight }
{}

/// A right cut and a right denial show that a reach policy does not hold.
pub fn cuts_and_denials_are_right()
    ensures separate { RightCutsSeparate }
    ensures cut { RightCutsBreakReach }
    ensures denied { RightDenialsBreakReach }
{}

/// In a valid network a policy has one pair of ends, and a right verdict on it is true.
pub fn verdicts_are_right()
    ensures ends { (net : Network) → IsValid net → HasOnePairOfEnds net }
    ensures verdicts { (net : Network) → IsValid net → RightVerdictsAreTrue net }
    ensures decide { (net : Network) → IsValid net → RightVerdictsDecide net }
{}

/// What a policy asks holds exactly if it holds under each failure set that it allows for. In a
/// valid network each right no shows a failure set that breaks its policy: a walk every link but
/// its own, a cut its links, and a denial no link.
pub fn nos_show_what_breaks()
    ensures holds { (net : Network) → HoldsUnderEach net }
    ensures breaks { (net : Network) → IsValid net → RightNosBreak net }
{}

/// A clear class whose packets enter and leave reaches its target exactly where a route is left. So
/// the links whose failure alone breaks a reach policy are those whose failure leaves no route.
pub fn routes_decide()
    ensures under { (net : Network) → IsValid net → RoutesDecide net }
    ensures all_up { (net : Network) → IsValid net → RoutesDecideAllUp net }
{}

/// The definitions on a network of two routers and one link.
pub fn two_routers()
    ensures valid { ExampleIsValid }
    ensures routed { BothWaysRouted }
    ensures distances { DistancesAreStable }
    ensures path { OnePathIsRight }
    ensures cut { OneCutIsRight }
    ensures walk { OneWalkIsRight }
{}

/// The definitions on the square of docs/model.md, where a list denies the arc that is on the
/// shortest way.
pub fn square()
    ensures distances { SquareDistancesAreStable }
    ensures none { SquareDeliversNone }
    ensures blocked { SquareIsNotBlocked }
    ensures walk { SquareWalkIsRight }
    ensures refused { SquareRefusalIsRight }
{}
