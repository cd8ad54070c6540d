//! Laws over the definitions alone: each is the contract of a function that does nothing.
ghost use Rattle.std.specs.Prelude.{◌≡◌, ◌≤◌, List, ℕ};
ghost use Rattle.arc_base.specs.declared.refusal.Kind.TheVariants as kinds;
ghost use Rattle.net_build.specs.Appends.{ABindingLineCounts, ANeighborLineCounts};
ghost use Rattle.net_build.specs.Appends.{APassiveLineCounts};
ghost use Rattle.net_build.specs.Networks.{IsNetworkOf, IsNetworkWithin, IsBuilt, IsBuiltWithin};
ghost use Rattle.net_build.specs.Networks.{IsFirstRefusalWithin};
ghost use Rattle.net_build.specs.declared.built.Built.{Built};
ghost use Rattle.net_doc.specs.declared.fault.Refusal.{Refusal};
ghost use Rattle.net_model.specs.declared.policies.Document.{Document};
ghost use Rattle.net_model.specs.declared.rows.Network.{Network};

use arc_base::limits::ENTRY_LIMIT;

/// A document and its files have at most one network or one first refusal, never both, whichever
/// links are to be down and however many entries a list may have.
pub fn files_have_one_answer()
    ensures one_network { (down : List ℕ) (most : ℕ) (doc : Document) (files : List (List ℕ))
        (net other : Network) →
        IsNetworkWithin down most doc files net →
        IsNetworkWithin down most doc files other → net ≡ other }
    ensures one_refusal { (down : List ℕ) (most : ℕ)
        (doc : Document) (files : List (List ℕ)) (r s : Refusal) →
        IsFirstRefusalWithin down most doc files r →
        IsFirstRefusalWithin down most doc files s → r ≡ s }
    ensures not_both { (down : List ℕ) (most : ℕ) (doc : Document) (files : List (List ℕ))
        (net : Network) (r : Refusal) →
        IsNetworkWithin down most doc files net → IsFirstRefusalWithin down most doc files r → ⊥ }
{}

/// No refusal here says that a file is missing or too long: the reader of the files reports that.
pub fn refusals_are_of_what_files_say()
    ensures never_missing { (down : List ℕ) (most : ℕ) (doc : Document) (files : List (List ℕ))
        (r : Refusal) → IsFirstRefusalWithin down most doc files r → r.kind ≡ kinds.Missing → ⊥ }
    ensures never_too_long { (down : List ℕ) (most : ℕ) (doc : Document) (files : List (List ℕ))
        (r : Refusal) → IsFirstRefusalWithin down most doc files r → r.kind ≡ kinds.TooLong → ⊥ }
{}

/// Extra checks do not change the network: if a list may have fewer entries, or links are to be
/// down, and nothing is refused, the network is that of the document and its files.
pub fn asking_more_changes_no_network()
    ensures network { (down : List ℕ) (most : ℕ) (doc : Document) (files : List (List ℕ))
        (net : Network) → most ≤ ENTRY_LIMIT →
        IsNetworkWithin down most doc files net → IsNetworkOf doc files net }
    ensures built { (down : List ℕ) (most : ℕ) (doc : Document) (files : List (List ℕ))
        (built : Built) → most ≤ ENTRY_LIMIT →
        IsBuiltWithin down most doc files built → IsBuilt doc files built }
{}

/// The last line of a process counts: an interface is passive, a neighbour shut down or its list
/// bound as the last line about it says, and one more line changes nothing else.
pub fn the_last_line_counts()
    ensures passive { APassiveLineCounts }
    ensures neighbor { ANeighborLineCounts }
    ensures binding { ABindingLineCounts }
{}
