//! What a command over a document begins with: the document, and the network of its router files.
ghost use Rattle.net_build.specs.Networks.{IsBuiltWithin};
ghost use Rattle.net_doc.specs.Documents.{IsWellFormed};
ghost use Rattle.net_rules.specs.Linking.{first_above};
ghost use Rattle.run_files.specs.Answers.{OnlyReads};
ghost use Rattle.run_files.specs.Limits.{entries_limit, least_limit, router_limit};
ghost use Rattle.run_inputs.specs.Inputs.{AreFit, HoldsDocument, ReadsDocumentAt, ReadsRouterFiles};
ghost use Rattle.run_inputs.specs.Inputs.{name_of, named, IsFit, ReadsInput, ReadsSources};
ghost use Rattle.std.specs.Prelude.{◌≡◌, ◌⊎◌, ◌≤◌, All, None, length, IfOk, IfSome};

use arc_base::limits::DOCUMENT_LIMIT;
use arc_base::{List, Memory, Name};
use arc_outside::Store;
use net_build::{Built, network_alone, network_within};
use net_doc::{NetFault, Refusal, document};
use net_model::{Document, Network};
use run_files::{FileRefusal, Limits, Reason, Stop, read_file, read_routers};
use std::alloc::Global;

/// A document, and the network of its router files.
#[derive(Drop)]
pub struct Input {
    pub doc: Document,
    pub net: Network,
}

/// The router files of a document in its order, and what is built from them: their network, their
/// lines, and where in them each part is.
#[derive(Drop)]
pub struct Sources {
    pub files: List<Name>,
    pub built: Built,
}

/// The name of the file of this number: 0 is the document, router files count from 1. Empty if
/// there is no such file.
fn name_of<'a>(document: &'a Name, routers: &'a List<Name>, file: u32) -> &'a [u8]
    ensures { result.now ≡ name_of document.now routers.now file }
{
    if file == 0 {
        return document.bytes();
    }
    match routers.get(file - 1) {
        Some(name) => name.bytes(),
        None => b"",
    }
}

/// The refusal, with the name of its file.
fn named(alloc: Global, document: &Name, routers: &List<Name>, refusal: Refusal) -> Stop
    ensures { (result ≡ Stop.Memory) ⊎
        (result ≡ Stop.Refused (named document.now routers.now refusal)) }
{
    match Name::make(alloc, name_of(document, routers, refusal.file)) {
        Ok(name) => Stop::Refused(FileRefusal {
            name,
            number: refusal.number,
            reason: Reason::Kind(refusal.kind),
        }),
        Err(Memory) => Stop::Memory,
    }
}

/// Reads the document, or refuses it.
pub fn read_document<S: Store>(alloc: Global, name: &Name, store: &mut S) -> Result<Document, Stop>
    ensures told { IfSome (S.held store.old) (λ files. ReadsDocumentAt name.now files result) }
    ensures well_formed { IfOk result IsWellFormed }
    ensures reads { OnlyReads least_limit S.held S.faults S.absences S.taken
        store.old store.new result }
{
    let bytes = read_file(alloc, store, name, DOCUMENT_LIMIT)?;
    match document(alloc, bytes.as_slice()) {
        Ok(doc) => Ok(doc),
        Err(NetFault::Refused(refusal)) => Err(named(alloc, name, &List::make(alloc), refusal)),
        Err(NetFault::Memory) => Err(Stop::Memory),
    }
}

/// Reads the router files that the document names, and builds their network, or gives the first
/// refusal. The numbers `down` are those of links that are to be down, counted from 1.
pub fn read_sources<S: Store>(
    alloc: Global,
    name: &Name,
    doc: &Document,
    down: &[u32],
    limits: Limits,
    store: &mut S,
) -> Result<Sources, Stop>
    requires { IsWellFormed doc.now }
    ensures told { IfSome (S.held store.old) (λ files. HoldsDocument name.now files doc.now
        → ReadsSources limits down.now name.now doc.now files result) }
    ensures fit { IfOk result (λ sources. AreFit doc.now sources.built.net) }
    ensures built { IfOk result (λ sources.
        IsBuiltWithin down.now (entries_limit limits) doc.now sources.files sources.built) }
    ensures count { IfOk result (λ sources. length sources.files ≡ length doc.now.routers) }
    ensures bytes { IfOk result (λ sources.
        All (λ text. length text ≤ router_limit limits) sources.files) }
    ensures down { IfOk result (λ sources.
        first_above (length sources.built.net.links) down.now ≡ None) }
    ensures reads { OnlyReads least_limit S.held S.faults S.absences S.taken
        store.old store.new result }
{
    let files = read_routers(alloc, store, doc.routers.slice(), limits)?;
    match network_within(alloc, doc, &files, down, limits.entries()) {
        Ok(built) => Ok(Sources { files, built }),
        Err(NetFault::Refused(refusal)) => Err(named(alloc, name, &doc.routers, refusal)),
        Err(NetFault::Memory) => Err(Stop::Memory),
    }
}

/// Reads the router files that the document names, and builds their network alone, with the lines
/// of one file in memory at a time; or gives the first refusal.
pub fn read_files<S: Store>(
    alloc: Global,
    name: &Name,
    doc: Document,
    down: &[u32],
    limits: Limits,
    store: &mut S,
) -> Result<Input, Stop>
    requires { IsWellFormed doc }
    ensures told { IfSome (S.held store.old) (λ files. HoldsDocument name.now files doc
        → ReadsRouterFiles limits down.now name.now files result) }
    ensures fit { IfOk result IsFit }
    ensures down { IfOk result (λ input. first_above (length input.net.links) down.now ≡ None) }
    ensures reads { OnlyReads least_limit S.held S.faults S.absences S.taken
        store.old store.new result }
{
    let files = read_routers(alloc, store, doc.routers.slice(), limits)?;
    match network_alone(alloc, &doc, &files, down, limits.entries()) {
        Ok(net) => Ok(Input { doc, net }),
        Err(NetFault::Refused(refusal)) => Err(named(alloc, name, &doc.routers, refusal)),
        Err(NetFault::Memory) => Err(Stop::Memory),
    }
}

/// Reads the document and the router files, and builds their network, or gives the first refusal.
pub fn read_input<S: Store>(
    alloc: Global,
    name: &Name,
    down: &[u32],
    limits: Limits,
    store: &mut S,
) -> Result<Input, Stop>
    ensures told { IfSome (S.held store.old) (λ files.
        ReadsInput limits down.now name.now files result) }
    ensures fit { IfOk result IsFit }
    ensures down { IfOk result (λ input. first_above (length input.net.links) down.now ≡ None) }
    ensures reads { OnlyReads least_limit S.held S.faults S.absences S.taken
        store.old store.new result }
{
    let doc = read_document(alloc, name, store)?;
    read_files(alloc, name, doc, down, limits, store)
}
