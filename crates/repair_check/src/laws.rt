//! Laws over the definitions alone: each is the contract of a function that does nothing.
ghost use Rattle.repair_check.specs.Certifies.{CertificatesAreAccepted, CertificatesNameTheirBound};
ghost use Rattle.repair_check.specs.Certifies.{CertifiedClaimsAreTrue, WrittenClaimsAreCertified};
ghost use Rattle.repair_check.specs.Outcomes.{HasOneOutcome};

use arc_repair::laws::certificates_are_true;
use edit_space::laws::networks_after_edits_are_valid;
use policy_encode::laws::one_formula;
use policy_report::laws::{
    certificates_are_read_again, edits_are_told_apart, only_certificates_are_taken,
};

/// A text is accepted exactly if it is the certificate of a claim.
pub fn certificates_are_accepted()
    ensures { CertificatesAreAccepted }
{
    networks_after_edits_are_valid();
    one_formula();
    certificates_are_read_again();
    only_certificates_are_taken();
    edits_are_told_apart();
}

/// A text has one outcome.
pub fn outcome_is_unique()
    ensures { HasOneOutcome }
{
    networks_after_edits_are_valid();
    one_formula();
}

/// A claim with a certificate is true.
pub fn certified_claims_are_true()
    ensures { CertifiedClaimsAreTrue }
{
    certificates_are_true();
}

/// The text that is written for a claim, with a log that proves it, is a certificate of the claim,
/// and names the claim's bound.
pub fn written_claims_are_certified()
    ensures certified { WrittenClaimsAreCertified }
    ensures bounded { CertificatesNameTheirBound }
{
    certificates_are_read_again();
    edits_are_told_apart();
}
