//! Where most edits of a network come from.

use arc_base::List;
use net_model::{FaceRow, Network, Policy};
use std::alloc::Global;
use traffic_classes::all_classes;

/// Whether a new packet list can be bound at the interface.
fn is_free(face: &FaceRow) -> bool {
    face.up && face.addr.is_some() && !face.bound_in
}

/// How many of the edits are entries of new lists, in words. The number is an upper bound: a
/// traffic class that no single entry can match has no such edit.
pub fn edits_of_new_lists(alloc: Global, net: &Network, policies: &List<Policy>) -> Option<String> {
    let classes = all_classes(alloc, net, policies).ok()?.len();
    let free = net.faces.slice().iter().filter(|face| is_free(face));
    let faces = free.count() as u64;
    let most = faces.saturating_mul(u64::from(classes));
    let from = format_args!("interfaces without a list: {faces}, traffic classes: {classes}");
    format!(in alloc; "up to {most} of the edits are entries of new lists ({from})").ok()
}
