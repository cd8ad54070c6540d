//! Why a text is no document.

use arc_base::Kind;
use net_doc::{NetFault, Refusal, document};
use serde_json::{Error, Value};
use std::alloc::{AllocError, Global};

const USUAL_CAUSES: &str = "a member that is unknown, missing or of another kind; \
    a prefix with bits past its length; failures missing where kind is reach, or standing \
    elsewhere; proto or port in version 1";

/// Whether a document with no other links and policies than these is out of form.
fn is_out_of_form(
    alloc: Global,
    version: &str,
    links: &str,
    policies: &str,
) -> Result<bool, AllocError> {
    let front = format!(in alloc; "{{\"version\": {version}, \"routers\": [\"r\"]")?;
    let text = format!(in alloc; "{front}, \"links\": [{links}], \"policies\": [{policies}]}}")?;
    match document(alloc, text.as_bytes()) {
        Err(NetFault::Refused(Refusal { kind, .. })) => Ok(kind == Kind::DocumentForm),
        _ => Ok(false),
    }
}

/// The number of the first link or policy that is out of form, whatever the others are, counted
/// from 1.
fn wrong_item(
    alloc: Global,
    version: &str,
    value: &Value,
    list: &str,
) -> Result<Option<usize>, AllocError> {
    let Some(items) = value.get(list).and_then(Value::as_array) else {
        return Ok(None);
    };
    for (place, item) in items.iter().enumerate() {
        let item = item.to_string(alloc)?;
        let (links, policies) = match list {
            "links" => (item.as_str(), ""),
            _ => ("", item.as_str()),
        };
        if is_out_of_form(alloc, version, links, policies)? {
            return Ok(Some(place.saturating_add(1)));
        }
    }
    Ok(None)
}

/// The part that makes a JSON value no document, if it can be found: `document` judges each link
/// and policy by itself.
fn wrong_part(alloc: Global, value: &Value) -> Result<Option<String>, AllocError> {
    let Some(version) = value.get("version") else {
        return Ok(None);
    };
    let version = version.to_string(alloc)?;
    if is_out_of_form(alloc, &version, "", "")? {
        return Ok(Some(String::from_str(alloc, "the version")?));
    }
    for (list, item) in [("links", "link"), ("policies", "policy")] {
        if let Some(number) = wrong_item(alloc, &version, value, list)? {
            return Ok(Some(format!(in alloc; "{item} {number}")?));
        }
    }
    Ok(None)
}

/// The message for a text that is no JSON. The place is where reading stopped: at the wrong word or
/// the one after it.
fn json_fault(alloc: Global, error: &Error) -> Result<String, AllocError> {
    if error.is_memory() {
        return Err(AllocError);
    }
    if error.is_eof() {
        return String::from_str(alloc, "is no JSON: it ends too early");
    }
    let (line, column) = (error.line(), error.column());
    format!(in alloc; "cannot be read as JSON beyond line {line}, column {column}")
}

/// The message for a text that is refused for its form as a document, which follows its name.
pub fn document_fault(alloc: Global, text: &[u8]) -> Result<String, AllocError> {
    let value = match Value::from_slice(alloc, text) {
        Ok(value) => value,
        Err(error) => return json_fault(alloc, &error),
    };
    match wrong_part(alloc, &value)? {
        Some(part) => format!(in alloc;
            "is JSON, but no document: look at {part}; usual causes: {USUAL_CAUSES}"
        ),
        None => format!(in alloc; "is JSON, but no document; usual causes: {USUAL_CAUSES}"),
    }
}

/// The link or policy of this number, counted from 1, in a document, as JSON on one line. `None` if
/// the text is no JSON or has no such item.
pub fn document_item(
    alloc: Global,
    text: &[u8],
    list: &str,
    number: u32,
) -> Result<Option<String>, AllocError> {
    let Ok(value) = Value::from_slice(alloc, text) else {
        return Ok(None);
    };
    let items = value.get(list).and_then(Value::as_array);
    let place = (number as usize).checked_sub(1);
    match items.zip(place).and_then(|(items, place)| items.get(place)) {
        Some(item) => Ok(Some(item.to_string(alloc)?)),
        None => Ok(None),
    }
}
