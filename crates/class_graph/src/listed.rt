//! Which links have a packet list at an end. Over the others no packet is denied.
ghost use Rattle.class_graph.specs.Listed.{AreListed, IsUnlisted};
ghost use Rattle.std.specs.Prelude.{◌≡◌, IfOk, IsFalse, None};

use arc_base::{List, Memory};
use net_model::{FaceRow, Network};
use std::alloc::Global;

/// Whether the interface has a packet list, inbound or outbound.
fn has_list(face: &FaceRow) -> bool
    ensures { IsFalse result → (face.now.list_in ≡ None) × (face.now.list_out ≡ None) }
{
    face.list_in.is_some() || face.list_out.is_some()
}

/// Whether an end of the link at a place has a packet list.
fn is_listed(net: &Network, place: u32) -> bool
    ensures { IsFalse result → IsUnlisted net.now place }
{
    let Some(link) = net.links.get(place) else {
        return true;
    };
    let Some(a) = net.faces.get(link.a.0) else {
        return true;
    };
    let Some(b) = net.faces.get(link.b.0) else {
        return true;
    };
    if has_list(a) {
        return true;
    }
    has_list(b)
}

/// For each link whether an end of it has a packet list.
pub fn listed_links(alloc: Global, net: &Network) -> Result<List<bool>, Memory>
    ensures { IfOk result (AreListed net.now) }
{
    let mut table = List::make(alloc);
    for place in 0..net.links.len() {
        table.push(is_listed(net, place))?;
    }
    Ok(table)
}
