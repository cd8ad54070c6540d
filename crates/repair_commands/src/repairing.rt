//! The command `repair DOC --out SUFFIX --proof NAME [--max-price N] [--conflicts N]`.
ghost use Rattle.arc_repair.specs.Answers.{IsRepairFault};
ghost use Rattle.repair_commands.specs.Repairs.{has_clash, IsRepaired, IsRepairRefusal};
ghost use Rattle.repair_commands.specs.Repairs.{WritesCertificate};
ghost use Rattle.repair_commands.specs.Steps.{IsFound};
ghost use Rattle.run_files.specs.Answers.{Answers, OnlyReads};
ghost use Rattle.run_files.specs.Limits.{least_limit};
ghost use Rattle.run_inputs.specs.Inputs.{AreFit};
ghost use Rattle.std.specs.Prelude.{◌≡◌, ◌≤◌, length, IfOk, IfErr};

use crate::answers::answer_done;
use arc_base::limits::{CONFLICT_LIMIT, POLICY_LIMIT, PRICE_LIMIT};
use arc_base::{Kind, List, Memory, Name};
use arc_outside::Store;
use arc_repair::Answer;
use command_words::RepairWords;
use edit_list::{Edit, EditFault, edits};
use file_copies::{clashes, copy_names};
use net_model::{Document, Network};
use run_files::{Done, Limits, Stop, refused};
use run_inputs::{fault_stop, read_document, read_sources};
use run_progress::{Listener, Work};
use std::alloc::Global;

/// Whether an output would have the name of a file that is read, or of another output.
fn has_clash(alloc: Global, words: &RepairWords, doc: &Document) -> Result<bool, Memory>
    ensures { IfOk result (λ clash. clash ≡ has_clash words.now doc.now) }
{
    let routers = doc.routers.slice();
    let mut outputs = copy_names(alloc, &words.suffix, routers)?;
    outputs.push(Name::make(alloc, words.proof.bytes())?)?;
    Ok(clashes(&words.document, routers, outputs.as_slice()))
}

/// The edits of the network, and its cheapest repair within a bound on the price and a limit of
/// conflicts.
pub fn find_repair<L: Listener>(
    alloc: Global,
    net: &Network,
    doc: &Document,
    bound: u32,
    conflicts: u64,
    listener: &mut L,
) -> Result<(List<Edit>, Answer), EditFault>
    requires fit { AreFit doc.now net.now }
    requires policies { length doc.now.policies ≤ POLICY_LIMIT }
    requires bound { bound ≤ PRICE_LIMIT }
    requires most { conflicts ≤ CONFLICT_LIMIT }
    ensures found { IfOk result
        (λ found. IsFound bound conflicts net.now doc.now found.0 found.1) }
    ensures fault { IfErr result (IsRepairFault net.now doc.now bound) }
{
    let list = edits(alloc, net, doc)?;
    let answer = arc_repair::repair_of(alloc, net, doc, &list, bound, conflicts, listener)?;
    Ok((list, answer))
}

/// Finds the cheapest edits after which the network meets the document, and writes the changed
/// files and a certificate.
pub fn repair<S: Store, L: Listener>(
    alloc: Global,
    words: &RepairWords,
    store: &mut S,
    listener: &mut L,
) -> Result<Done, Stop>
    requires bound { words.now.bound ≤ PRICE_LIMIT }
    requires most { words.now.conflicts ≤ CONFLICT_LIMIT }
    ensures answer { Answers (WritesCertificate words.now) (IsRepairRefusal words.now)
        (IsRepaired words.now) (S.held store.old) result }
    ensures reads { OnlyReads least_limit S.held S.faults S.absences S.taken
        store.old store.new result }
{
    let doc = read_document(alloc, &words.document, store)?;
    if has_clash(alloc, words, &doc)? {
        return Err(refused(alloc, &words.document, 0, Kind::OutputName));
    }
    listener.heard(Work::Reading);
    let sources = read_sources(alloc, &words.document, &doc, &[], Limits::Editing, store)?;
    let net = &sources.built.net;
    let (list, answer) = match find_repair(
        alloc,
        net,
        &doc,
        words.bound,
        words.conflicts,
        listener,
    ) {
        Ok(found) => found,
        Err(fault) => return Err(fault_stop(alloc, &words.document, fault)),
    };
    let done = answer_done(alloc, words, &doc, &sources, &list, &answer)?;
    Ok(done)
}
