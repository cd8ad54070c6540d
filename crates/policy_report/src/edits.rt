//! The texts of edits, and the edit that a text names.
ghost use Rattle.policy_report.specs.Edits.{router_name, owner_name, face_name, neighbor_text};
ghost use Rattle.policy_report.specs.Edits.{route_list_words, packet_list_words, edit_words};
ghost use Rattle.policy_report.specs.Edits.{edit_text, edit_of, edit_from, IsTextAt};
ghost use Rattle.policy_report.specs.Lines.{after_spaces};
ghost use Rattle.std.specs.Prelude.{◌≡◌, ◌<◌, ◌++◌, ◌∷◌, [], length, IfOk, IfSome};
ghost use Rattle.std.specs.Prelude.{OnOk};

use crate::words::{push_address_word, push_class, push_prefix_word, push_word};
use arc_base::{Face, List, ListId, Memory, Router};
use edit_list::Edit;
use net_model::Network;
use std::alloc::Global;

/// The name of the router at this place.
fn router_name(net: &Network, router: Router) -> &[u8]
    ensures { result.now ≡ router_name net.now router }
{
    match net.routers.get(router.0) {
        Some(row) => row.name.bytes(),
        None => b"",
    }
}

/// The name of the router of an interface.
fn owner_name(net: &Network, face: Face) -> &[u8]
    ensures { result.now ≡ owner_name net.now face }
{
    match net.faces.get(face.0) {
        Some(row) => router_name(net, row.router),
        None => b"",
    }
}

/// The name of an interface.
fn face_name(net: &Network, face: Face) -> &[u8]
    ensures { result.now ≡ face_name net.now face }
{
    match net.faces.get(face.0) {
        Some(row) => row.name.bytes(),
        None => b"",
    }
}

/// The address of the neighbour at an interface, as a word.
fn push_neighbor(alloc: Global, text: &mut Vec<u8>, net: &Network, face: Face) -> Result<(), Memory>
    ensures { OnOk result (text.new.items ≡ text.old.items ++ 32 ∷ neighbor_text net.now face) }
{
    match net.session_at(face) {
        Some(session) => push_address_word(alloc, text, session.peer),
        None => push_word(text, b""),
    }
}

/// Three words.
fn push_words(text: &mut Vec<u8>, first: &[u8], second: &[u8], third: &[u8]) -> Result<(), Memory>
    ensures { OnOk result (text.new.items
        ≡ text.old.items ++ after_spaces (first.now ∷ second.now ∷ third.now ∷ [])) }
{
    push_word(text, first)?;
    push_word(text, second)?;
    push_word(text, third)
}

/// The router of a route list, and the list.
fn push_route_list(text: &mut Vec<u8>, net: &Network, list: ListId) -> Result<(), Memory>
    ensures { OnOk result
        (text.new.items ≡ text.old.items ++ after_spaces (route_list_words net.now list)) }
{
    match net.route_lists.get(list.0) {
        Some(row) => push_words(
            text,
            router_name(net, row.router),
            b"list",
            row.name.bytes(),
        ),
        None => Ok(()),
    }
}

/// The router of a packet list, and the list.
fn push_packet_list(text: &mut Vec<u8>, net: &Network, list: ListId) -> Result<(), Memory>
    ensures { OnOk result
        (text.new.items ≡ text.old.items ++ after_spaces (packet_list_words net.now list)) }
{
    match net.packet_lists.get(list.0) {
        Some(row) => push_words(
            text,
            router_name(net, row.router),
            b"list",
            row.name.bytes(),
        ),
        None => Ok(()),
    }
}

/// What the text of an edit says after its first word.
fn push_edit_words(
    alloc: Global,
    text: &mut Vec<u8>,
    net: &Network,
    edit: &Edit,
) -> Result<(), Memory>
    ensures { OnOk result
        (text.new.items ≡ text.old.items ++ after_spaces (edit_words net.now edit.now)) }
{
    match edit {
        Edit::Session(face) => {
            push_word(text, b"session")?;
            push_word(text, owner_name(net, *face))?;
            push_word(text, face_name(net, *face))
        }
        Edit::RouteList(list, prefix) => {
            push_word(text, b"route")?;
            push_route_list(text, net, *list)?;
            push_prefix_word(alloc, text, prefix)
        }
        Edit::RouteNew(face, prefix) => {
            push_word(text, b"route")?;
            push_word(text, owner_name(net, *face))?;
            push_word(text, b"neighbor")?;
            push_neighbor(alloc, text, net, *face)?;
            push_prefix_word(alloc, text, prefix)
        }
        Edit::PacketList(list, class) => {
            push_word(text, b"packet")?;
            push_packet_list(text, net, *list)?;
            push_class(alloc, text, class)
        }
        Edit::PacketNew(face, class) => {
            push_word(text, b"packet")?;
            push_word(text, owner_name(net, *face))?;
            push_word(text, b"interface")?;
            push_word(text, face_name(net, *face))?;
            push_class(alloc, text, class)
        }
    }
}

/// The text of an edit.
pub(crate) fn push_edit(
    alloc: Global,
    text: &mut Vec<u8>,
    net: &Network,
    edit: &Edit,
) -> Result<(), Memory>
    ensures { OnOk result (text.new.items ≡ text.old.items ++ edit_text net.now edit.now) }
{
    text.extend_from_slice(b"edit")?;
    push_edit_words(alloc, text, net, edit)
}

/// The text of the edit at this place, without a line end: `edit session ROUTER IFNAME`, `edit
/// route ROUTER list NAME P/L`, `edit route ROUTER neighbor A P/L`, `edit packet ROUTER list NAME
/// P/L P/L [SERVICE]` or `edit packet ROUTER interface IFNAME P/L P/L [SERVICE]`. SERVICE is
/// `service:P.N-P.N`, and is left out if the edit is about all services.
pub fn edit_text(
    alloc: Global,
    net: &Network,
    edits: &List<Edit>,
    at: u32,
) -> Result<Vec<u8>, Memory>
    requires { at < length edits.now }
    ensures { IfOk result (λ text. IsTextAt net.now edits.now at text.items) }
{
    let mut text = Vec::new(alloc);
    if let Some(edit) = edits.get(at) {
        push_edit(alloc, &mut text, net, edit)?;
    }
    Ok(text)
}

/// The index of the first of these edits that has this text.
fn find_edit(
    alloc: Global,
    net: &Network,
    edits: &[Edit],
    text: &[u8],
) -> Result<Option<usize>, Memory>
    ensures place { IfOk result (λ place. place ≡ edit_of net.now edits.now text.now) }
    ensures within { IfOk result (λ place. IfSome place (λ at. at < length edits.now)) }
{
    for (place, edit) in edits.iter().enumerate() {
        let mut written = Vec::new(alloc);
        push_edit(alloc, &mut written, net, edit)?;
        if written.as_slice() == text {
            return Ok(Some(place));
        }
    }
    Ok(None)
}

/// The index of the first edit that has this text, among those from this place on.
pub(crate) fn edit_from(
    alloc: Global,
    net: &Network,
    edits: &List<Edit>,
    next: u32,
    text: &[u8],
) -> Result<Option<u32>, Memory>
    ensures place { IfOk result (λ place. place ≡ edit_from net.now edits.now next text.now) }
    ensures few { IfOk result (λ place. IfSome place (λ at. at < 4294967295)) }
{
    let edits = edits.slice();
    let Some(rest) = edits.get(next as usize..) else {
        return Ok(None);
    };
    match find_edit(alloc, net, rest, text)? {
        Some(place) => Ok(Some(next + place as u32)),
        None => Ok(None),
    }
}

/// The place of the edit that has this text, given without a line end; `None` exactly if no edit
/// has it. It takes time linear in the edits. For callers of the library: `arcv` looks edits up in
/// an index of their texts.
pub fn edit_line(
    alloc: Global,
    net: &Network,
    edits: &List<Edit>,
    text: &[u8],
) -> Result<Option<u32>, Memory>
    ensures { IfOk result (λ place. place ≡ edit_of net.now edits.now text.now) }
{
    match find_edit(alloc, net, edits.slice(), text)? {
        Some(place) => Ok(Some(place as u32)),
        None => Ok(None),
    }
}
