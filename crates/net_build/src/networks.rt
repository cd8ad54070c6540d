//! From the document and the texts of its router files to their network, or the first refusal.
ghost use Rattle.net_build.specs.Networks.{Builds, BuildsWithin, FindsWithin};
ghost use Rattle.net_model.specs.Forwarding.{HasEnds};
ghost use Rattle.net_model.specs.Packets.{subject};
ghost use Rattle.net_model.specs.Validity.{IsValid};
ghost use Rattle.net_rules.specs.Linking.{first_above};
ghost use Rattle.std.specs.Prelude.{◌≡◌, ◌≤◌, ◌^◌, ◌<◌, None, length, All, IfOk};

use crate::assembly::assemble;
use crate::built::Built;
use crate::files::{read_configs, read_files};
use crate::places::all_places;
use arc_base::limits::{ENTRY_LIMIT, LINK_LIMIT, POLICY_LIMIT, ROUTER_LIMIT};
use arc_base::{List, Name};
use net_doc::NetFault;
use net_model::{Document, Network};
use std::alloc::Global;

/// The network of the document and of the texts of its router files, in the document's order, or
/// the first refusal: `network_within` with no link down, and at most `ENTRY_LIMIT` entries in a
/// list.
pub fn network(alloc: Global, doc: &Document, files: &List<Name>) -> Result<Built, NetFault>
    requires count { length files.now ≡ length doc.now.routers }
    requires few { All (λ text. length text < 2 ^ 32) files.now }
    requires routers { length doc.now.routers ≤ ROUTER_LIMIT }
    requires links { length doc.now.links ≤ LINK_LIMIT }
    requires policies { length doc.now.policies ≤ POLICY_LIMIT }
    ensures answer { Builds doc.now files.now result }
    ensures valid { IfOk result (λ built. IsValid built.net) }
    ensures ends { IfOk result (λ built.
        All (λ policy. HasEnds built.net (subject policy)) doc.now.policies) }
{
    network_within(alloc, doc, files, &[], ENTRY_LIMIT)
}

/// The network of the document and of the texts of its router files, in the document's order, or
/// the first refusal. Each file is read by itself first, one after another; then the checks across
/// the files run in one fixed order. `down` has the numbers of links in the document, counted from
/// 1: that each is the number of a link is checked right after the links, and the network is the
/// one with them up. No list may have more than `most_entries` entries.
pub fn network_within(
    alloc: Global,
    doc: &Document,
    files: &List<Name>,
    down: &[u32],
    most_entries: u32,
) -> Result<Built, NetFault>
    requires count { length files.now ≡ length doc.now.routers }
    requires few { All (λ text. length text < 2 ^ 32) files.now }
    requires routers { length doc.now.routers ≤ ROUTER_LIMIT }
    requires links { length doc.now.links ≤ LINK_LIMIT }
    requires policies { length doc.now.policies ≤ POLICY_LIMIT }
    ensures answer { BuildsWithin down.now most_entries doc.now files.now result }
    ensures down { IfOk result (λ built. first_above (length built.net.links) down.now ≡ None) }
    ensures valid { IfOk result (λ built. IsValid built.net) }
    ensures ends { IfOk result (λ built.
        All (λ policy. HasEnds built.net (subject policy)) doc.now.policies) }
{
    let read = read_files(alloc, files)?;
    let net = assemble(alloc, doc, &read.configs, down, most_entries)?;
    let places = all_places(alloc, &read.configs)?;
    Ok(Built {
        net,
        lines: read.lines,
        places,
    })
}

/// The network of `network_within` alone. The lines of one file at a time are in memory, so the
/// memory needed is that of the largest file and of the settings of all.
pub fn network_alone(
    alloc: Global,
    doc: &Document,
    files: &List<Name>,
    down: &[u32],
    most_entries: u32,
) -> Result<Network, NetFault>
    requires count { length files.now ≡ length doc.now.routers }
    requires few { All (λ text. length text < 2 ^ 32) files.now }
    requires routers { length doc.now.routers ≤ ROUTER_LIMIT }
    requires links { length doc.now.links ≤ LINK_LIMIT }
    requires policies { length doc.now.policies ≤ POLICY_LIMIT }
    ensures answer { FindsWithin down.now most_entries doc.now files.now result }
    ensures down { IfOk result (λ net. first_above (length net.links) down.now ≡ None) }
    ensures valid { IfOk result IsValid }
    ensures ends { IfOk result (λ net.
        All (λ policy. HasEnds net (subject policy)) doc.now.policies) }
{
    let configs = read_configs(alloc, files)?;
    let net = assemble(alloc, doc, &configs, down, most_entries)?;
    Ok(net)
}
