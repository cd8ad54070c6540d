//! Laws of copies: each is the contract of a function that does nothing.
ghost use Rattle.copy_laws.specs.Adjacencies.{FewerLinksKeepBarred, FewerLinksCostReach};
ghost use Rattle.copy_laws.specs.Adjacencies.{DownIsFailed, PassiveEndsAreDown, EachSetMayBeDown};
ghost use Rattle.copy_laws.specs.Beyond.{PacketIsSure, ReachIsSure, DeliversAsModel};
ghost use Rattle.copy_laws.specs.Beyond.{BlockedStays, ThroughStays};
ghost use Rattle.copy_laws.specs.Cables.{CablesFailAsLinks, ReachByCables};
ghost use Rattle.copy_laws.specs.Entries.{MorePass, FewerPass, ConditionsNarrow, PlainIsModel};
ghost use Rattle.copy_laws.specs.Entries.{MorePassBound, FewerPassBound, LastEntryCounts};
ghost use Rattle.copy_laws.specs.Entries.{ActingDecides, FirstEntryCounts};
ghost use Rattle.copy_laws.specs.Entries.{WiderListsPermitMore, NarrowerListsPermitFewer};
ghost use Rattle.copy_laws.specs.Entries.{WiderListsKeepBarred, NarrowerListsKeepReach};
ghost use Rattle.copy_laws.specs.Passing.{MoreKeepsBarred, FewerKeepsReach, MoreKeepsBarredUnder};
ghost use Rattle.copy_laws.specs.Passing.{FewerKeepsReachUnder, MoreKeepsBarredReally};
ghost use Rattle.copy_laws.specs.Passing.{FewerKeepsWays, FewerKeepsReachReally};
ghost use Rattle.copy_laws.specs.Small.{GuardIsLess, QuietIsDown, TwoByTwo, DefaultAgrees};
ghost use Rattle.copy_laws.specs.Together.{BothKeepBarred, BothCostReach, AllKeepBarred};
ghost use Rattle.copy_laws.specs.Together.{AllCostReach};

/// Over a copy that permits more packets a yes of blocked or through is true of the network, and
/// over one that permits fewer a yes of reach: for each policy, under each failure set by itself,
/// and where the network looks at more of a packet than the model does.
pub fn packets_pass()
    ensures more { MoreKeepsBarred }
    ensures fewer { FewerKeepsReach }
    ensures more_under { MoreKeepsBarredUnder }
    ensures fewer_under { FewerKeepsReachUnder }
    ensures ways { FewerKeepsWays }
    ensures more_really { MoreKeepsBarredReally }
    ensures fewer_really { FewerKeepsReachReally }
{}

/// A list permits more packets where its permits are widened or added and its denies narrowed or
/// left out, and fewer the other way round. Entries may have conditions that the model does not
/// know. A list without entries permits all. So a yes over a copy with such lists is true of the
/// network as it is.
pub fn entries_change()
    ensures more { MorePass }
    ensures fewer { FewerPass }
    ensures narrow { ConditionsNarrow }
    ensures plain { PlainIsModel }
    ensures acting { ActingDecides }
    ensures more_bound { MorePassBound }
    ensures fewer_bound { FewerPassBound }
    ensures last { LastEntryCounts }
    ensures first { FirstEntryCounts }
    ensures wider { WiderListsPermitMore }
    ensures narrower { NarrowerListsPermitFewer }
    ensures barred { WiderListsKeepBarred }
    ensures reach { NarrowerListsKeepReach }
{}

/// Links that are up in the copy and down in the network count as failed: blocked and through stay,
/// and reach survives that many failures fewer; also if the lists of the copy differ. A link whose
/// ends are passive is down.
pub fn links_are_down()
    ensures stable { DownIsFailed }
    ensures passive { PassiveEndsAreDown }
    ensures each { EachSetMayBeDown }
    ensures barred { FewerLinksKeepBarred }
    ensures reach { FewerLinksCostReach }
    ensures both_barred { BothKeepBarred }
    ensures both_reach { BothCostReach }
{}

/// Where a cable carries at most m links, reach under m times k failed links is reach under k
/// failed cables.
pub fn cables_are_shared()
    ensures failures { CablesFailAsLinks }
    ensures reach { ReachByCables }
{}

/// Whatever routers do that have no modelled route, what reaches its target is sure to be
/// delivered; and blocked and through stay if the source router has such a route or no packet comes
/// back from a router that has none. So it is with lists and adjacencies that differ too.
pub fn routers_know_more()
    ensures packet { PacketIsSure }
    ensures reach { ReachIsSure }
    ensures delivers { DeliversAsModel }
    ensures blocked { BlockedStays }
    ensures through { ThroughStays }
    ensures all_barred { AllKeepBarred }
    ensures all_reach { AllCostReach }
{}

/// The premises of these laws hold for small networks that differ from their copies.
pub fn premises_hold()
    ensures lists { GuardIsLess }
    ensures links { QuietIsDown }
    ensures cables { TwoByTwo }
    ensures forwarding { DefaultAgrees }
{}
