//! Laws over the definitions alone: each is the contract of a function that does nothing.
ghost use Rattle.net_doc.specs.Documents.{reading, IsFormOrLimit, IsWellFormed};
ghost use Rattle.net_doc.specs.Documents.{OldPoliciesAreWhole};
ghost use Rattle.net_doc.specs.Services.{ProtocolsHaveServices, PortsHaveServices};
ghost use Rattle.net_doc.specs.Services.{PoliciesSpeakOfOneProtocol};
ghost use Rattle.net_doc.specs.declared.fault.Refusal.{Refusal};
ghost use Rattle.net_model.specs.declared.policies.Document.{Document};
ghost use Rattle.std.specs.Prelude.{◌≡◌, ℕ, List, Ok, Err};

/// What holds of every document that is read.
pub fn documents_are_well_formed()
    ensures { (bytes : List ℕ) (doc : Document) → reading bytes ≡ Ok doc → IsWellFormed doc }
{}

/// What a text is refused for that is no document.
pub fn refusals_are_of_form_or_limits()
    ensures { (bytes : List ℕ) (refusal : Refusal) → reading bytes ≡ Err refusal →
        IsFormOrLimit refusal.kind }
{}

/// Which services policies of version 1 are about.
pub fn old_policies_speak_of_all_services()
    ensures { OldPoliciesAreWhole }
{}

/// A policy may name each protocol.
pub fn protocols_have_services()
    ensures { ProtocolsHaveServices }
{}

/// A policy may name each port of TCP and UDP.
pub fn ports_have_services()
    ensures { PortsHaveServices }
{}

/// A policy is about all services or about some of one protocol.
pub fn policies_speak_of_one_protocol()
    ensures { PoliciesSpeakOfOneProtocol }
{}
