//! The command `generate N --proof NAME`.
ghost use Rattle.edit_list.specs.Determined.{IsCountable};
ghost use Rattle.file_copies.specs.Changes.{IsEditable};
ghost use Rattle.generate_commands.specs.Generates.{IsGenerateRefusal, IsMadeNetwork};
ghost use Rattle.generate_commands.specs.Generates.{IsSummary};
ghost use Rattle.generate_commands.specs.Steps.{IsSomeGenerated};
ghost use Rattle.net_build.specs.Networks.{IsBuiltWithin};
ghost use Rattle.run_files.specs.Answers.{Gives, HasStopCause};
ghost use Rattle.run_inputs.specs.Inputs.{AreFit};
ghost use Rattle.std.specs.Prelude.{◌≡◌, ◌≤◌, ◌<◌, ◌^◌, [], length, All, IfOk, IfErr};

use crate::answers::answer_done;
use arc_base::limits::{
    DEFAULT_CONFLICTS, DEFAULT_PRICE, EDITED_ENTRY_LIMIT, FEWEST_GENERATED, LINK_LIMIT,
    MOST_GENERATED, POLICY_LIMIT, ROUTER_LIMIT,
};
use arc_base::{Memory, Name};
use command_words::GenerateWords;
use edit_space::laws::networks_after_edits_are_valid;
use generated_network_laws::laws::generated_files_are_not_refused;
use net_build::{Built, network_within};
use net_doc::NetFault;
use net_gen::Generated;
use net_laws::verdicts_are_right;
use repair_commands::find_repair;
use run_files::{Done, Limits, Stop};
use run_inputs::fault_stop;
use run_progress::Listener;
use std::alloc::Global;
use verdicts::judge_all;

/// What a refusal calls the document, which is no file.
const DOCUMENT: &[u8] = b"net.json";

/// Builds the network of the generated files, as a command that edits files does. Nothing of it is
/// refused.
fn build(alloc: Global, made: &Generated) -> Result<Built, Memory>
    requires generated { IsSomeGenerated made.now }
    requires count { length made.now.files ≡ length made.now.doc.routers }
    requires bytes { All (λ text. length text < 2 ^ 32) made.now.files }
    requires routers { length made.now.doc.routers ≤ ROUTER_LIMIT }
    requires links { length made.now.doc.links ≤ LINK_LIMIT }
    requires policies { length made.now.doc.policies ≤ POLICY_LIMIT }
    ensures built { IfOk result (IsBuiltWithin [] EDITED_ENTRY_LIMIT made.now.doc made.now.files) }
    ensures fit { IfOk result (λ built. AreFit made.now.doc built.net) }
{
    generated_files_are_not_refused();
    let entries = Limits::Editing.entries();
    match network_within(alloc, &made.doc, &made.files, &[], entries) {
        Ok(built) => Ok(built),
        Err(NetFault::Refused(_)) => unreachable!(),
        Err(NetFault::Memory) => Err(Memory),
    }
}

/// Finds the cheapest repair of the network that was made, within the default bounds of `repair` on
/// price and conflicts, judges its policies, and prints both.
fn repair_made<L: Listener>(
    alloc: Global,
    words: &GenerateWords,
    made: &Generated,
    built: &Built,
    listener: &mut L,
) -> Result<Done, Stop>
    requires number { words.now.number ≤ MOST_GENERATED }
    requires made { IsMadeNetwork words.now made.now built.now }
    requires fit { AreFit made.now.doc built.now.net }
    requires policies { length made.now.doc.policies ≤ POLICY_LIMIT }
    requires editable { IsCountable built.now.net →
        IsEditable made.now.doc built.now made.now.files }
    ensures answer { Gives (IsGenerateRefusal words.now) (IsSummary words.now) result }
    ensures cause { IfErr result (HasStopCause ⊥ ⊥ ⊥) }
{
    verdicts_are_right();
    networks_after_edits_are_valid();
    let (net, doc) = (&built.net, &made.doc);
    let document = Name::make(alloc, DOCUMENT)?;
    let (list, answer) = match find_repair(
        alloc,
        net,
        doc,
        DEFAULT_PRICE,
        DEFAULT_CONFLICTS,
        listener,
    ) {
        Ok(found) => found,
        Err(fault) => return Err(fault_stop(alloc, &document, fault)),
    };
    let verdicts = judge_all(alloc, net, &doc.policies, listener)?;
    let done = answer_done(alloc, words, net, doc, &verdicts, &list, &answer)?;
    Ok(done)
}

/// Makes the network of this many routers, judges its policies, and repairs it with the default
/// bounds of `repair` on price and conflicts. It reads nothing, and writes only the certificate.
/// Most of its time goes into the search.
pub fn generate<L: Listener>(
    alloc: Global,
    words: &GenerateWords,
    listener: &mut L,
) -> Result<Done, Stop>
    requires some { FEWEST_GENERATED ≤ words.now.number }
    requires few { words.now.number ≤ MOST_GENERATED }
    ensures answer { Gives (IsGenerateRefusal words.now) (IsSummary words.now) result }
    ensures cause { IfErr result (HasStopCause ⊥ ⊥ ⊥) }
{
    let made = net_gen::generate(alloc, words.number)?;
    let built = build(alloc, &made)?;
    repair_made(alloc, words, &made, &built, listener)
}
