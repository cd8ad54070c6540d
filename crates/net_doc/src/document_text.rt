//! Reading a document from its JSON text, or its first refusal.
ghost use Rattle.net_doc.specs.Documents.{ReadsDocument, IsWellFormed, document_from, version_of};
ghost use Rattle.net_doc.specs.Documents.{limit_refusal};
ghost use Rattle.net_doc.specs.Drafts.{kind_meant, policy_meant, document_meant};
ghost use Rattle.net_model.specs.Policies.{HasFewFailures};
ghost use Rattle.serde_json.specs.View.{view};
ghost use Rattle.std.specs.Prelude.{◌≡◌, None, option_map, IfOk};

use crate::drafts::{Draft, KindText, PolicyText};
use crate::fault::{NetFault, Refusal};
use crate::items::{read_links, read_policies, read_routers};
use crate::limits::limit_refusal;
use crate::members::{has_only, number_under};
use crate::weights::read_weights;
use arc_base::{Kind, List, Memory};
use net_model::{Document, Policy, PolicyKind};
use serde_json::Value;
use std::alloc::Global;

const FORM: NetFault = NetFault::Refused(Refusal {
    file: 0,
    number: 0,
    kind: Kind::DocumentForm,
});

/// Reads the document. Bytes that are none are refused as `DocumentForm`, and a count that passes
/// its limit as `Limit`, of routers, links, policies and failures, in this order. The file is 0,
/// and the number that of the policy for failures and else 0.
pub fn document(alloc: Global, bytes: &[u8]) -> Result<Document, NetFault>
    ensures reads { ReadsDocument bytes.now result }
    ensures well_formed { IfOk result IsWellFormed }
{
    let value = match Value::from_slice(alloc, bytes) {
        Ok(value) => value,
        Err(error) => {
            if error.is_memory() {
                return Err(NetFault::Memory);
            }
            return Err(FORM);
        }
    };
    let draft = read_draft(alloc, &value)?.ok_or(FORM)?;
    if let Some(refusal) = limit_refusal(&draft) {
        return Err(NetFault::Refused(refusal));
    }
    Ok(meant(alloc, draft)?)
}

fn read_draft(alloc: Global, value: &Value) -> Result<Option<Draft>, Memory>
    ensures { IfOk result (λ draft.
        option_map document_meant draft ≡ document_from (view value.now)) }
{
    let Some(version) = read_version(value) else {
        return Ok(None);
    };
    if !has_only(
        value,
        &["version", "routers", "links", "policies", "weights"],
    ) {
        return Ok(None);
    }
    let Some(routers) = read_routers(alloc, value)? else {
        return Ok(None);
    };
    let Some(links) = read_links(alloc, value)? else {
        return Ok(None);
    };
    let Some(policies) = read_policies(alloc, version, value)? else {
        return Ok(None);
    };
    let Some(weights) = read_weights(value) else {
        return Ok(None);
    };
    Ok(Some(Draft {
        routers,
        links,
        policies,
        weights,
    }))
}

/// The version, where there is one of this number.
fn read_version(value: &Value) -> Option<u64>
    ensures { result ≡ version_of (view value.now) }
{
    let version = number_under(value, "version")?;
    if version == 1 || version == 2 {
        Some(version)
    } else {
        None
    }
}

/// The document that is meant, where no limit is passed.
fn meant(alloc: Global, draft: Draft) -> Result<Document, Memory>
    requires { limit_refusal (document_meant draft) ≡ None }
    ensures { IfOk result (λ doc. doc ≡ document_meant draft) }
{
    let mut policies = Vec::new(alloc);
    for text in &draft.policies {
        policies.push(policy_meant(text))?;
    }
    Ok(Document {
        routers: draft.routers,
        links: draft.links,
        policies: List::of(policies)?,
        weights: draft.weights,
    })
}

fn policy_meant(text: &PolicyText) -> Policy
    requires { HasFewFailures (kind_meant text.now.kind) }
    ensures { result ≡ policy_meant text.now }
{
    Policy {
        kind: kind_meant(text.kind),
        from: text.from,
        to: text.to,
        service: text.service,
    }
}

fn kind_meant(kind: KindText) -> PolicyKind
    requires { HasFewFailures (kind_meant kind) }
    ensures { result ≡ kind_meant kind }
{
    match kind {
        KindText::Blocked => PolicyKind::Blocked,
        KindText::Through => PolicyKind::Through,
        KindText::Reach(failures) => PolicyKind::Reach(failures as u32),
    }
}
