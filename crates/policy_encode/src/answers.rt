//! The conditions for sessions, routes and packets.
ghost use Rattle.edit_list.specs.declared.edit_kinds.Edit.{Edit as AnyEdit};
ghost use Rattle.policy_encode.specs.Answers.{session_condition, packet_answer, outbound_condition};
ghost use Rattle.policy_encode.specs.Answers.{filter_condition, route_condition, inbound_condition};
ghost use Rattle.policy_encode.specs.Answers.{route_answer, list_condition, arc_lists, class_ends};
ghost use Rattle.policy_encode.specs.Finding.{IsIndexOf};
ghost use Rattle.std.specs.Option.{option_copied};
ghost use Rattle.std.specs.Prelude.{◌≡◌, ◌<◌, ◌^◌, List, length};

use crate::edit_index::EditIndex;
use arc_base::{Face, ListId, Prefix};
use condition_formula::{ArcLists, ClassEnds, Condition};
use edit_list::Edit;
use net_model::{Class, FaceRow, Network, SessionRow};

/// The condition under which the interface forms its adjacency or session.
pub(crate) fn session_condition(
    net: &Network,
    index: &EditIndex,
    face: Face,
    row: &FaceRow,
) -> Condition
    requires { length index.now.keys.keys < 2 ^ 32 }
    ensures { (list : List AnyEdit) → IsIndexOf list index.now →
        result ≡ session_condition net.now list face row.now }
{
    index.turned(Edit::Session(face), row.is_open(net.session_at(face)))
}

fn route_answer(net: &Network, id: ListId, to: Prefix) -> bool
    ensures { result ≡ route_answer net.now id to }
{
    match net.route_lists.get(id.0) {
        Some(list) => list.permits(to),
        None => false,
    }
}

fn filter_condition(
    net: &Network,
    index: &EditIndex,
    to: Prefix,
    face: Face,
    filter: Option<ListId>,
) -> Condition
    requires { length index.now.keys.keys < 2 ^ 32 }
    ensures { (list : List AnyEdit) → IsIndexOf list index.now →
        result ≡ filter_condition net.now list to face filter }
{
    match filter {
        Some(id) => index.turned(Edit::RouteList(id, to), route_answer(net, id, to)),
        None => index.turned(Edit::RouteNew(face, to), true),
    }
}

/// The condition under which the interface accepts a route for the host network.
pub(crate) fn route_condition(
    net: &Network,
    index: &EditIndex,
    to: Prefix,
    face: Face,
    session: Option<&SessionRow>,
) -> Condition
    requires { length index.now.keys.keys < 2 ^ 32 }
    ensures { (list : List AnyEdit) → IsIndexOf list index.now →
        result ≡ route_condition net.now list to face (option_copied session.entry) }
{
    match session {
        Some(session) => filter_condition(net, index, to, face, session.filter),
        None => Condition::Always,
    }
}

fn packet_answer(net: &Network, id: ListId, class: Class) -> bool
    ensures { result ≡ packet_answer net.now id class }
{
    match net.packet_lists.get(id.0) {
        Some(list) => list.permits(class.first_packet()),
        None => false,
    }
}

fn list_condition(net: &Network, index: &EditIndex, class: Class, id: ListId) -> Condition
    requires { length index.now.keys.keys < 2 ^ 32 }
    ensures { (list : List AnyEdit) → IsIndexOf list index.now →
        result ≡ list_condition net.now list class id }
{
    index.turned(Edit::PacketList(id, class), packet_answer(net, id, class))
}

fn inbound_condition(
    net: &Network,
    index: &EditIndex,
    class: Class,
    face: Face,
    bound: Option<ListId>,
) -> Condition
    requires { length index.now.keys.keys < 2 ^ 32 }
    ensures { (list : List AnyEdit) → IsIndexOf list index.now →
        result ≡ inbound_condition net.now list class face bound }
{
    match bound {
        Some(list) => list_condition(net, index, class, list),
        None => index.turned(Edit::PacketNew(face, class), true),
    }
}

fn outbound_condition(
    net: &Network,
    index: &EditIndex,
    class: Class,
    bound: Option<ListId>,
) -> Condition
    requires { length index.now.keys.keys < 2 ^ 32 }
    ensures { (list : List AnyEdit) → IsIndexOf list index.now →
        result ≡ outbound_condition net.now list class bound }
{
    match bound {
        Some(id) => list_condition(net, index, class, id),
        None => Condition::Always,
    }
}

/// The conditions under which an arc permits the class: at the interface `tail` outbound, and at
/// `head` inbound.
pub(crate) fn arc_lists(
    net: &Network,
    index: &EditIndex,
    tail: &FaceRow,
    head: Face,
    head_row: &FaceRow,
    class: Class,
) -> ArcLists
    requires { length index.now.keys.keys < 2 ^ 32 }
    ensures { (list : List AnyEdit) → IsIndexOf list index.now →
        result ≡ arc_lists net.now list tail.now head head_row.now class }
{
    ArcLists {
        outbound: outbound_condition(net, index, class, tail.list_out),
        inbound: inbound_condition(net, index, class, head, head_row.list_in),
    }
}

/// The conditions under which the packets of the class enter at the source and leave at the target.
pub(crate) fn class_ends(
    net: &Network,
    index: &EditIndex,
    source: Face,
    source_row: &FaceRow,
    target: &FaceRow,
    class: Class,
) -> ClassEnds
    requires { length index.now.keys.keys < 2 ^ 32 }
    ensures { (list : List AnyEdit) → IsIndexOf list index.now →
        result ≡ class_ends net.now list source source_row.now target.now class }
{
    let enter = if source_row.up {
        inbound_condition(net, index, class, source, source_row.list_in)
    } else {
        Condition::Never
    };
    let leave = if target.up {
        outbound_condition(net, index, class, target.list_out)
    } else {
        Condition::Never
    };
    ClassEnds { enter, leave }
}
