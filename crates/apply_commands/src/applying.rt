//! The command `apply DOC EDITS --out SUFFIX`.
ghost use Rattle.apply_commands.specs.Applies.{has_copy_clash, IsApplied, IsApplyRefusal};
ghost use Rattle.apply_commands.specs.Applies.{WritesCopies};
ghost use Rattle.apply_commands.specs.Steps.{Chooses, IsWritten, ReadsReady};
ghost use Rattle.edit_list.specs.EditLists.{AreEdits};
ghost use Rattle.edit_list.specs.Prices.{chosen_of};
ghost use Rattle.net_build.specs.Networks.{IsBuiltWithin};
ghost use Rattle.net_doc.specs.Documents.{IsWellFormed};
ghost use Rattle.run_files.specs.Answers.{Answers, OnlyReads};
ghost use Rattle.run_files.specs.Limits.{least_limit};
ghost use Rattle.run_inputs.specs.Inputs.{AreFit};
ghost use Rattle.std.specs.Prelude.{◌≡◌, ◌≤◌, [], length, All, IfOk, IfSome};

use arc_base::limits::{
    EDIT_FILE_LIMIT, EDIT_LIMIT, EDITED_ENTRY_LIMIT, EDITED_FILE_LIMIT, POLICY_LIMIT,
};
use arc_base::{Kind, List, Memory, Name};
use arc_outside::Store;
use command_words::ApplyWords;
use edit_list::{Edit, EditFault, edits};
use edit_reader::{Named, named_edits};
use file_copies::{changes, clashes, copy_names, holds, push_wrote};
use net_model::{Document, Network};
use run_files::{Done, Limits, Stop, read_file, refused};
use run_inputs::{Sources, read_document, read_sources};
use std::alloc::Global;

/// The document, and the text of the edit file.
#[derive(Drop)]
struct Ready {
    pub doc: Document,
    pub text: Vec<u8>,
}

/// The edits of a network, and for each whether it is chosen.
#[derive(Drop)]
struct Chosen {
    pub list: List<Edit>,
    pub flags: List<bool>,
}

/// Whether a copy would have the name of a file that is read, or of another copy.
fn has_clash(alloc: Global, words: &ApplyWords, doc: &Document) -> Result<bool, Memory>
    ensures { IfOk result (λ clash. clash ≡ has_copy_clash words.now doc.now) }
{
    let routers = doc.routers.slice();
    let names = copy_names(alloc, &words.suffix, routers)?;
    Ok(clashes(&words.document, routers, names.as_slice()) || holds(names.as_slice(), &words.edits))
}

/// Reads the document and the edit file, or refuses one of them or the names of the copies.
fn read_ready<S: Store>(alloc: Global, words: &ApplyWords, store: &mut S) -> Result<Ready, Stop>
    ensures told { IfSome (S.held store.old) (λ files. ReadsReady words.now files result) }
    ensures well_formed { IfOk result (λ ready. IsWellFormed ready.doc) }
    ensures few { IfOk result (λ ready. length ready.text.items ≤ EDIT_FILE_LIMIT) }
    ensures reads { OnlyReads least_limit S.held S.faults S.absences S.taken
        store.old store.new result }
{
    let doc = read_document(alloc, &words.document, store)?;
    if has_clash(alloc, words, &doc)? {
        return Err(refused(alloc, &words.document, 0, Kind::OutputName));
    }
    let text = read_file(alloc, store, &words.edits, EDIT_FILE_LIMIT)?;
    Ok(Ready { doc, text })
}

/// The edits of the network, and which of them the text names; or the refusal of a count or a line.
fn choose(
    alloc: Global,
    words: &ApplyWords,
    net: &Network,
    doc: &Document,
    text: &[u8],
) -> Result<Chosen, Stop>
    requires fit { AreFit doc.now net.now }
    requires policies { length doc.now.policies ≤ POLICY_LIMIT }
    requires few { length text.now ≤ EDIT_FILE_LIMIT }
    ensures chooses { Chooses words.now net.now doc.now text.now result }
    ensures flags { IfOk result (λ chosen. length chosen.flags ≡ length chosen.list) }
{
    let list = match edits(alloc, net, doc) {
        Ok(list) => list,
        Err(EditFault::Limit(what, count)) => {
            return Err(refused(alloc, &words.document, 0, Kind::Limit(what, count)));
        }
        Err(EditFault::Memory) => return Err(Stop::Memory),
    };
    match named_edits(alloc, net, &list, text)? {
        Named::Edits(flags) => Ok(Chosen { list, flags }),
        Named::Wrong(line) => Err(refused(alloc, &words.edits, line, Kind::EditLine)),
    }
}

/// Copies of the files that the edits change, and a line of text for each.
fn written(
    alloc: Global,
    suffix: &Name,
    doc: &Document,
    sources: &Sources,
    chosen: &Chosen,
) -> Result<Done, Memory>
    requires built { IsBuiltWithin [] EDITED_ENTRY_LIMIT doc.now
        sources.now.files sources.now.built }
    requires count { length sources.now.files ≡ length doc.now.routers }
    requires bytes { All (λ text. length text ≤ EDITED_FILE_LIMIT) sources.now.files }
    requires edits { AreEdits sources.now.built.net doc.now chosen.now.list }
    requires few { length chosen.now.list ≤ EDIT_LIMIT }
    requires flags { length chosen.now.flags ≡ length chosen.now.list }
    ensures { IfOk result (IsWritten suffix.now doc.now sources.now.built sources.now.files
        (chosen_of chosen.now.list chosen.now.flags)) }
{
    let flags = chosen.flags.slice();
    let writes = changes(alloc, suffix, doc, sources, &chosen.list, flags)?;
    let mut text = Vec::new(alloc);
    push_wrote(&mut text, writes.slice())?;
    Ok(Done {
        text: Name::of(text),
        writes,
        status: 0,
    })
}

/// Makes copies of the router files, with the edits that an edit file names.
pub fn apply<S: Store>(alloc: Global, words: &ApplyWords, store: &mut S) -> Result<Done, Stop>
    ensures answer { Answers (WritesCopies words.now) (IsApplyRefusal words.now)
        (IsApplied words.now) (S.held store.old) result }
    ensures reads { OnlyReads least_limit S.held S.faults S.absences S.taken
        store.old store.new result }
{
    let ready = read_ready(alloc, words, store)?;
    let doc = &ready.doc;
    let sources = read_sources(alloc, &words.document, doc, &[], Limits::Editing, store)?;
    let text = ready.text.as_slice();
    let chosen = choose(alloc, words, &sources.built.net, doc, text)?;
    let done = written(alloc, &words.suffix, doc, &sources, &chosen)?;
    Ok(done)
}
