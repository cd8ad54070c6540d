//! What is wrong with a claim, judged without its log.
ghost use Rattle.arc_repair.specs.Checks.{IsVerdictDefect, IsDefect, HasFlagsOf};
ghost use Rattle.arc_repair.specs.Claims.{IsRightYes, IsRightClaim, claim_bound, least_bound};
ghost use Rattle.arc_repair.specs.Claims.{needs_refutation};
ghost use Rattle.edit_list.specs.declared.claims.Claim.TheVariants.{Repaired};
ghost use Rattle.net_model.specs.Forwarding.{HasEnds};
ghost use Rattle.net_model.specs.Packets.{subject};
ghost use Rattle.net_model.specs.Validity.{IsValid};
ghost use Rattle.std.specs.List.{AllZip};
ghost use Rattle.std.specs.Prelude.{◌≡◌, ◌≤◌, length, All, IfOk, MatchOption};

use arc_base::limits::PRICE_LIMIT;
use arc_base::{CertKind, List, Memory};
use edit_list::{Claim, Edit, price};
use edit_space::after;
use net_model::{Document, Network, Policy, Verdict};
use std::alloc::Global;
use witness_check::accepts;

/// The bound of the claim.
pub(crate) fn bound_of(claim: &Claim) -> u32
    ensures { result ≡ claim_bound claim.now }
{
    match claim {
        Claim::Repaired { bound, .. } => *bound,
        Claim::NoRepair { bound } => *bound,
    }
}

/// The least bound that a log of the claim may have.
pub(crate) fn least_bound(claim: &Claim) -> Option<u32>
    ensures { result ≡ least_bound claim.now }
{
    match claim {
        Claim::Repaired { price, .. } => price.checked_sub(1),
        Claim::NoRepair { bound } => Some(*bound),
    }
}

/// Whether the log of the claim has to refute the formula; for a repair of price 0 there is nothing
/// to refute.
pub(crate) fn needs_refutation(claim: &Claim) -> bool
    ensures { result ≡ needs_refutation claim.now }
{
    match claim {
        Claim::Repaired { price, .. } => *price > 0,
        Claim::NoRepair { .. } => true,
    }
}

/// The first defect of the verdicts on these policies.
fn verdict_defect(net: &Network, policies: &[Policy], verdicts: &[Verdict]) -> Option<CertKind>
    requires valid { IsValid net.now }
    requires ends { All (λ policy. HasEnds net.now (subject policy)) policies.now }
    ensures { MatchOption result (AllZip (IsRightYes net.now) policies.now verdicts.now)
        (IsVerdictDefect net.now policies.now verdicts.now) }
{
    for (place, policy) in policies.iter().enumerate() {
        let Some(verdict) = verdicts.get(place) else {
            return Some(CertKind::Policy);
        };
        if !verdict.is_yes() {
            return Some(CertKind::NotYes);
        }
        if !accepts(net, policy, verdict) {
            return Some(CertKind::Witness);
        }
    }
    if verdicts.len() > policies.len() {
        Some(CertKind::Policy)
    } else {
        None
    }
}

/// The first defect of the claim of a repair.
fn repair_defect(
    alloc: Global,
    net: &Network,
    doc: &Document,
    list: &List<Edit>,
    claimed: u32,
    bound: u32,
    chosen: &List<bool>,
    verdicts: &List<Verdict>,
) -> Result<Option<CertKind>, Memory>
    requires valid { IsValid net.now }
    requires ends { All (λ policy. HasEnds net.now (subject policy)) doc.now.policies }
    requires flags { length chosen.now ≡ length list.now }
    requires bound { bound ≤ PRICE_LIMIT }
    ensures { IfOk result (λ kind. MatchOption kind
        (IsRightClaim net.now doc.now list.now (Repaired claimed bound chosen.now verdicts.now))
        (IsDefect net.now doc.now list.now (Repaired claimed bound chosen.now verdicts.now))) }
{
    if claimed > bound {
        return Ok(Some(CertKind::Price));
    }
    let cost = price(doc, list, chosen.slice());
    if cost != u64::from(claimed) {
        return Ok(Some(CertKind::Price));
    }
    let after = after(alloc, net, list, chosen.slice())?;
    Ok(verdict_defect(&after, doc.policies.slice(), verdicts.slice()))
}

/// The first defect of the claim, whose bound is at most `PRICE_LIMIT`.
pub(crate) fn defect(
    alloc: Global,
    net: &Network,
    doc: &Document,
    list: &List<Edit>,
    claim: &Claim,
) -> Result<Option<CertKind>, Memory>
    requires valid { IsValid net.now }
    requires ends { All (λ policy. HasEnds net.now (subject policy)) doc.now.policies }
    requires flags { HasFlagsOf list.now claim.now }
    requires bound { claim_bound claim.now ≤ PRICE_LIMIT }
    ensures { IfOk result (λ kind.
        MatchOption kind (IsRightClaim net.now doc.now list.now claim.now)
        (IsDefect net.now doc.now list.now claim.now)) }
{
    match claim {
        Claim::Repaired {
            price,
            bound,
            chosen,
            verdicts,
        } => repair_defect(alloc, net, doc, list, *price, *bound, chosen, verdicts),
        Claim::NoRepair { .. } => Ok(None),
    }
}
