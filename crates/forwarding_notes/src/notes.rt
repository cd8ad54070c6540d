//! Whether OSPF runs everywhere in the network of router files, and whether edits end this.
ghost use Rattle.forwarding_notes.specs.Notes.{SaysOfAny, IsAfterLines, Closes, AreClosed};
ghost use Rattle.net_doc.specs.Documents.{IsWellFormed};
ghost use Rattle.run_inputs.specs.Inputs.{AreFit, HoldsDocument};
ghost use Rattle.std.specs.Prelude.{◌≡◌, ◌≤◌, ◌<◌, ◌^◌, length, IfOk, IfSome, IsTrue};

use arc_base::limits::POLICY_LIMIT;
use arc_base::{Memory, Name};
use arc_outside::Store;
use edit_list::{EditFault, edits};
use edit_reader::{Named, named_edits};
use edit_space::after;
use net_model::{Document, Network};
use open_networks::runs_everywhere;
use run_files::{Limits, Stop};
use run_inputs::{read_files, read_sources};
use std::alloc::Global;

/// Whether OSPF runs everywhere in the network of a document and its router files: then each yes of
/// a blocked or through policy over it holds for any forwarding.
pub fn holds_for_any<S: Store>(
    alloc: Global,
    document: &Name,
    doc: Document,
    store: &mut S,
) -> Result<bool, Stop>
    requires { IsWellFormed doc }
    ensures told { IfSome (S.held store.old) (λ files. HoldsDocument document.now files doc
        → IfOk result (SaysOfAny document.now files)) }
    ensures same { S.held store.new ≡ S.held store.old }
{
    let input = read_files(alloc, document, doc, &[], Limits::Judging, store)?;
    Ok(runs_everywhere(&input.net))
}

/// The network after the edits that the lines of a text name, if each line names one.
fn after_lines(
    alloc: Global,
    net: &Network,
    doc: &Document,
    text: &[u8],
) -> Result<Option<Network>, Memory>
    requires fit { AreFit doc.now net.now }
    requires policies { length doc.now.policies ≤ POLICY_LIMIT }
    requires few { length text.now < 2 ^ 32 }
    ensures { IfOk result (λ found. IfSome found (IsAfterLines net.now doc.now text.now)) }
{
    let list = match edits(alloc, net, doc) {
        Ok(list) => list,
        Err(EditFault::Limit(_, _)) => return Ok(None),
        Err(EditFault::Memory) => return Err(Memory),
    };
    match named_edits(alloc, net, &list, text)? {
        Named::Edits(chosen) => Ok(Some(after(alloc, net, &list, chosen.slice())?)),
        Named::Wrong(_) => Ok(None),
    }
}

/// Whether OSPF runs everywhere in a network, but not after the edits that the lines of a text
/// name.
fn closes(alloc: Global, net: &Network, doc: &Document, text: &[u8]) -> Result<bool, Memory>
    requires fit { AreFit doc.now net.now }
    requires policies { length doc.now.policies ≤ POLICY_LIMIT }
    requires few { length text.now < 2 ^ 32 }
    ensures { IfOk result (λ closes. IsTrue closes → Closes net.now doc.now text.now) }
{
    if !runs_everywhere(net) {
        return Ok(false);
    }
    match after_lines(alloc, net, doc, text)? {
        Some(after) => Ok(!runs_everywhere(&after)),
        None => Ok(false),
    }
}

/// Whether OSPF runs everywhere in the network of a document and its router files, but not after
/// the edits that the lines of a text name. Then a yes over the network after them need not hold
/// for any forwarding.
pub fn edits_close<S: Store>(
    alloc: Global,
    document: &Name,
    doc: &Document,
    text: &[u8],
    store: &mut S,
) -> Result<bool, Stop>
    requires well_formed { IsWellFormed doc.now }
    requires few { length text.now < 2 ^ 32 }
    ensures told { IfSome (S.held store.old) (λ files. HoldsDocument document.now files doc.now
        → IfOk result (λ closes. IsTrue closes → AreClosed document.now text.now files)) }
    ensures same { S.held store.new ≡ S.held store.old }
{
    let sources = read_sources(alloc, document, doc, &[], Limits::Editing, store)?;
    Ok(closes(alloc, &sources.built.net, doc, text)?)
}
