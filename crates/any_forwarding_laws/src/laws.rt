//! Laws over the definitions alone: each is the contract of a function that does nothing.
ghost use Rattle.any_forwarding_laws.specs.HubExample.{ExampleHasHub};
ghost use Rattle.any_forwarding_laws.specs.Hubs.{HubsCover};
ghost use Rattle.any_forwarding_laws.specs.Laws.{ClosedSidesStop, ClosedSidesForceWaypoints};
ghost use Rattle.any_forwarding_laws.specs.Laws.{WalksAreCarried, RightVerdictsDecideAny};
ghost use Rattle.any_forwarding_laws.specs.Laws.{ModelDeliveriesAreCarried, EverywhereIsOpen};
ghost use Rattle.any_forwarding_laws.specs.Laws.{CoveredDeliveriesAreCarried, ClosedCopiesStop};
ghost use Rattle.any_forwarding_laws.specs.Laws.{ClosedCopiesForceWaypoints, AnyIsStronger};
ghost use Rattle.any_forwarding_laws.specs.Laws.{ExampleIsOpen, WiderCopiesCover};
ghost use Rattle.any_forwarding_laws.specs.Laws.{EachCoversItself, CoversInTurn, HubsLeadOn};
ghost use Rattle.net_model.specs.Validity.{IsValid};
ghost use Rattle.net_model.specs.declared.rows.Network.{Network};

/// In an open network right closed sides show that no forwarding delivers a packet of the class, or
/// that each that it delivers has crossed a waypoint.
pub fn closed_sides_hold_for_any_forwarding()
    ensures blocked { ClosedSidesStop }
    ensures through { ClosedSidesForceWaypoints }
{}

/// A packet that is delivered in the model is carried, and a right walk shows a forwarding that
/// breaks its policy. So in an open network a right verdict on a blocked or through policy says
/// whether some forwarding breaks it.
pub fn verdicts_decide_for_any_forwarding()
    ensures model { ModelDeliveriesAreCarried }
    ensures stronger { AnyIsStronger }
    ensures walks { WalksAreCarried }
    ensures decide { RightVerdictsDecideAny }
{}

/// A valid network is open if OSPF runs at every end of a link that is up, none of these is
/// passive, and every host network is advertised. The network of two routers and one link is open.
pub fn ospf_everywhere_is_open()
    ensures valid { (net : Network) → IsValid net → EverywhereIsOpen net }
    ensures example { ExampleIsOpen }
{}

/// What a network delivers by any forwarding, each copy that covers it delivers too. So right
/// closed sides of an open copy are true of every network that it covers.
pub fn copies_speak_of_what_they_cover()
    ensures carried { CoveredDeliveriesAreCarried }
    ensures blocked { ClosedCopiesStop }
    ensures through { ClosedCopiesForceWaypoints }
{}

/// A copy with the same links, interfaces that are up where those are, and lists that permit no
/// less covers a network, whatever the routes of either; and in a copy an arc may lead over a hub,
/// as a LAN of several routers does. A network covers itself, and copies of copies cover in turn,
/// so each step from a network to a copy can be judged by itself.
pub fn wider_copies_cover()
    ensures wider { WiderCopiesCover }
    ensures hub { HubsLeadOn }
    ensures itself { EachCoversItself }
    ensures in_turn { CoversInTurn }
{}

/// A copy with a hub in place of a LAN covers the network: a router of its own, with one link to
/// each gateway in place of the links between each two gateways. Hosts of the LAN may be at the
/// hub, whichever gateway they use. Three gateways have such a copy.
pub fn hubs_stand_for_lans()
    ensures cover { HubsCover }
    ensures example { ExampleHasHub }
{}
