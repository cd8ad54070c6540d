//! What the packet lists of a network answer to a class, by the packet of its first addresses.
ghost use Rattle.class_graph.specs.Answers.{answers_to, Allows, EndsAllow};
ghost use Rattle.net_model.specs.Packets.{first_packet};
ghost use Rattle.std.specs.Prelude.{◌≡◌, ◌↔◌, IsTrue, IfOk};

use arc_base::{List, ListId, Memory};
use net_model::{Class, FaceRow, Network};
use std::alloc::Global;

/// What each packet list of the network answers to the class's packet of first addresses.
pub fn list_answers(alloc: Global, net: &Network, class: Class) -> Result<List<bool>, Memory>
    ensures { IfOk result (λ answers. answers ≡ answers_to net.now (first_packet class)) }
{
    let packet = class.first_packet();
    let mut answers = List::make(alloc);
    for list in net.packet_lists.slice() {
        answers.push(list.permits(packet))?;
    }
    Ok(answers)
}

/// Whether the list with this place answers yes. An interface without a defined list permits every
/// packet.
pub(crate) fn allows(answers: &List<bool>, list: Option<ListId>) -> bool
    ensures { IsTrue result ↔ Allows answers.now list }
{
    let Some(id) = list else { return true };
    match answers.get(id.0) {
        Some(answer) => *answer,
        None => false,
    }
}

/// Whether the lists that an arc meets answer yes: that outbound at its tail, and that inbound at
/// its head.
pub(crate) fn arc_allows(answers: &List<bool>, tail: &FaceRow, head: &FaceRow) -> bool
    ensures { IsTrue result ↔ EndsAllow answers.now tail.now head.now }
{
    allows(answers, tail.list_out) && allows(answers, head.list_in)
}
