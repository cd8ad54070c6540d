//! Laws over the definitions alone: each is the contract of a function that does nothing.
ghost use Rattle.arc_repair.specs.Laws.{CertificatesAreTrue, ChecksAreExact, CertificatesPass};
ghost use Rattle.arc_repair.specs.Laws.{MetNetworksNeedNoEdits};

use edit_space::laws::networks_after_edits_are_valid;
use net_laws::verdicts_are_right;
use network_edit_laws::no_edits_change_nothing;
use policy_encode::laws::{
    formulas_are_searchable, models_are_repairs, one_formula, one_model_serves,
};
use price_descent::laws::logs_show_prices;

/// A claim that has a certificate is true, whoever made it.
pub fn certificates_are_true()
    ensures { CertificatesAreTrue }
{
    networks_after_edits_are_valid();
    models_are_repairs();
    one_model_serves();
    formulas_are_searchable();
    logs_show_prices();
    verdicts_are_right();
}

/// A check accepts each step of a log, and the claim in the end, exactly if the claim and the log
/// are a certificate.
pub fn checks_are_exact()
    ensures exact { ChecksAreExact }
    ensures passes { CertificatesPass }
{
    one_formula();
}

/// A network that meets the document needs no edits.
pub fn met_networks_need_no_edits()
    ensures { MetNetworksNeedNoEdits }
{
    no_edits_change_nothing();
}
