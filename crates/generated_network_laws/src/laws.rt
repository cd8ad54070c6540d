//! Laws over the definitions alone: each is the contract of a function that does nothing.
ghost use Rattle.generated_network_laws.specs.Laws.{GeneratedFilesAreNotRefused};
ghost use Rattle.generated_network_laws.specs.Laws.{GeneratedNetworksHaveTheirPlan};
ghost use Rattle.generated_network_laws.specs.Laws.{GeneratedDocumentsHaveTheirPolicies};
ghost use Rattle.generated_network_laws.specs.Limits.{GeneratedNetworksHaveFewEdits};

/// The files of a generated network are refused for no reason: they have a network, unless memory
/// runs out.
pub fn generated_files_are_not_refused()
    ensures { GeneratedFilesAreNotRefused }
{}

/// The network of a generated network's files is the one that its number describes: a ring of that
/// many routers with links across it, each with its host network, and no lists.
pub fn generated_networks_have_their_plan()
    ensures network { GeneratedNetworksHaveTheirPlan }
    ensures policies { GeneratedDocumentsHaveTheirPolicies }
{}

/// The network of a generated network's files has one class for each policy, and few edits: no
/// limit of `edit_list::edits` is passed.
pub fn generated_networks_have_few_edits()
    ensures { GeneratedNetworksHaveFewEdits }
{}
