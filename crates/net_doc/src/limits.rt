//! The limits of a document's counts.
ghost use Rattle.net_doc.specs.Documents.{over, failures_refusal, policies_refusal, limit_refusal};
ghost use Rattle.net_doc.specs.Drafts.{kind_meant, policy_meant, document_meant};
ghost use Rattle.std.specs.Prelude.{◌≡◌, ◌≤◌, length, map};

use crate::drafts::{Draft, KindText, PolicyText};
use crate::fault::Refusal;
use arc_base::limits::{FAILURE_LIMIT, LINK_LIMIT, POLICY_LIMIT, ROUTER_LIMIT};
use arc_base::{Kind, LimitKind};

/// The first count that passes its limit.
#[tactic(auto, unfolding(crate::specs::Documents::limit_refusal))]
pub(crate) fn limit_refusal(draft: &Draft) -> Option<Refusal>
    ensures { result ≡ limit_refusal (document_meant draft.now) }
{
    let routers = over(
        LimitKind::Routers,
        ROUTER_LIMIT,
        0,
        u64::from(draft.routers.len()),
    );
    if routers.is_some() {
        return routers;
    }
    let links = over(
        LimitKind::Links,
        LINK_LIMIT,
        0,
        u64::from(draft.links.len()),
    );
    if links.is_some() {
        return links;
    }
    if draft.policies.len() as u64 > POLICY_LIMIT {
        return over(
            LimitKind::Policies,
            POLICY_LIMIT,
            0,
            draft.policies.len() as u64,
        );
    }
    policies_refusal(draft.policies.as_slice())
}

fn over(what: LimitKind, limit: u64, number: u32, count: u64) -> Option<Refusal>
    ensures { result ≡ over what limit number count }
{
    if count > limit {
        Some(Refusal {
            file: 0,
            number,
            kind: Kind::Limit(what, count),
        })
    } else {
        None
    }
}

/// The first policy that allows too many failures.
fn policies_refusal(policies: &[PolicyText]) -> Option<Refusal>
    requires { length policies.now ≤ POLICY_LIMIT }
    ensures { result ≡ policies_refusal 1 (map policy_meant policies.now) }
{
    for place in 0..policies.len() {
        let refusal = failures_refusal(place as u32 + 1, policies[place].kind);
        if refusal.is_some() {
            return refusal;
        }
    }
    None
}

fn failures_refusal(number: u32, kind: KindText) -> Option<Refusal>
    ensures { result ≡ failures_refusal number (kind_meant kind) }
{
    match kind {
        KindText::Blocked | KindText::Through => None,
        KindText::Reach(failures) => over(LimitKind::Failures, FAILURE_LIMIT, number, failures),
    }
}
