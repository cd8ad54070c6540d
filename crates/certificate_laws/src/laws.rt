//! Laws over the definitions alone: each is the contract of a function that does nothing.
ghost use Rattle.certificate_laws.specs.Laws.{GeneratedIsAccepted, LeftIsAccepted};
ghost use Rattle.certificate_laws.specs.Laws.{RepairedIsAccepted, VerifiedIsAccepted};

use net_build::laws::asking_more_changes_no_network;
use policy_report::laws::{certificates_are_read_again, edits_are_told_apart};
use repair_check::laws::{certified_claims_are_true, written_claims_are_certified};
use settings_edit_laws::laws::networks_are_writable;

/// Every report that `verify` printed is accepted by `check` once it is saved under a name, if the
/// document and its router files are unchanged.
pub fn verified_is_accepted()
    ensures { VerifiedIsAccepted }
{}

/// The certificate that `repair` wrote with status 0 or 2 is accepted by `check`, whatever name it
/// is saved under, if the document and its router files are unchanged; so is the one among the
/// files that `repair` left.
pub fn repaired_is_accepted()
    ensures saved { RepairedIsAccepted }
    ensures left { LeftIsAccepted }
{
    written_claims_are_certified();
    certified_claims_are_true();
    certificates_are_read_again();
    edits_are_told_apart();
    networks_are_writable();
    asking_more_changes_no_network();
}

/// The certificate that `generate` wrote with status 0 or 2 is accepted by `check`, whatever name
/// it is saved under, once the generated document and router files are written to files.
pub fn generated_is_accepted()
    ensures { GeneratedIsAccepted }
{
    written_claims_are_certified();
    certified_claims_are_true();
    certificates_are_read_again();
    edits_are_told_apart();
    networks_are_writable();
    asking_more_changes_no_network();
}
