//! The second reading of a repair's certificate, which is judged line by line.
ghost use Rattle.check_commands.specs.Readings.{JudgesRepair};
ghost use Rattle.run_files.specs.Answers.{OnlyReads};
ghost use Rattle.run_files.specs.Limits.{least_limit};
ghost use Rattle.run_inputs.specs.Inputs.{AreFit};
ghost use Rattle.std.specs.Prelude.{◌≤◌, length, IfSome};

use arc_base::limits::{POLICY_LIMIT, PROOF_LIMIT};
use arc_base::{List, Name};
use arc_outside::Store;
use edit_list::{Edit, edits};
use net_model::{Document, Network};
use repair_check::laws::{certificates_are_accepted, certified_claims_are_true};
use repair_check::{RepairJudge, read_addresses};
use report_check::Outcome;
use run_files::{LineJudge, Stop, judge_lines};
use run_inputs::fault_stop;
use std::alloc::Global;
use std::ops::ControlFlow;

/// The judge of a repair's certificate for a network, its document, whose name a refusal has, and
/// their edits.
#[derive(Drop)]
struct RepairLines<'a> {
    document: &'a Name,
    net: &'a Network,
    doc: &'a Document,
    list: &'a List<Edit>,
    judge: RepairJudge,
}

impl<'a> LineJudge for RepairLines<'a> {
    ghost use Rattle.check_commands.specs.Readings.{RefusesFor};
    ghost use Rattle.repair_check.specs.Certifies.{IsCountFault, text_answers};
    ghost use Rattle.repair_check.specs.Instances.{IsInstance};
    ghost use Rattle.repair_check.specs.LineByLine.{CanGoOn, HasComeTo, Judges};
    ghost use Rattle.std.specs.Prelude.{◌-◌, ◌^◌, ℕ, List as Items};

    type Outcome = Outcome;

    ghost room = { λ lines. 2 ^ 64 - 1 - lines.judge.number };

    ghost can_go_on = { λ lines. IsInstance lines.net.now lines.doc.now lines.list.now ×
        CanGoOn lines.net.now lines.doc.now lines.list.now lines.judge };

    ghost leads_to = { λ lines ls o. (text : Items ℕ) →
        HasComeTo lines.net.now lines.doc.now lines.list.now text ls lines.judge →
        Judges lines.net.now lines.doc.now lines.list.now text o };

    ghost refuses = { λ lines ls r. (text : Items ℕ) →
        HasComeTo lines.net.now lines.doc.now lines.list.now text ls lines.judge →
        RefusesFor (IsCountFault lines.net.now lines.doc.now lines.list.now
        (text_answers lines.net.now lines.doc.now lines.list.now text)) lines.document.now r };

    fn line(
        self,
        alloc: Global,
        line: &[u8],
    ) -> Result<ControlFlow<Outcome, RepairLines<'a>>, Stop> {
        let document = self.document;
        let net = self.net;
        let doc = self.doc;
        let list = self.list;
        match self.judge.line(alloc, net, doc, list, line) {
            Ok(ControlFlow::Continue(judge)) => Ok(ControlFlow::Continue(RepairLines {
                document,
                net,
                doc,
                list,
                judge,
            })),
            Ok(ControlFlow::Break(outcome)) => Ok(ControlFlow::Break(outcome)),
            Err(fault) => Err(fault_stop(alloc, document, fault)),
        }
    }

    fn end(self, alloc: Global) -> Result<Outcome, Stop> {
        Ok(self.judge.end(alloc, self.net, self.doc, self.list)?)
    }
}

/// Judges the certificate of a repair over the network, or refuses its file or, for a count, the
/// document.
pub fn judge_repair<S: Store>(
    alloc: Global,
    document: &Name,
    net: &Network,
    doc: &Document,
    certificate: &Name,
    store: &mut S,
) -> Result<Outcome, Stop>
    requires fit { AreFit doc.now net.now }
    requires few { length doc.now.policies ≤ POLICY_LIMIT }
    ensures told { IfSome (S.held store.old) (λ files.
        JudgesRepair document.now net.now doc.now certificate.now files result) }
    ensures reads { OnlyReads least_limit S.held S.faults S.absences S.taken
        store.old store.new result }
{
    read_addresses(net);
    certificates_are_accepted();
    certified_claims_are_true();
    let list = match edits(alloc, net, doc) {
        Ok(list) => list,
        Err(fault) => return Err(fault_stop(alloc, document, fault)),
    };
    let judge = RepairJudge::make(alloc);
    let lines = RepairLines {
        document,
        net,
        doc,
        list: &list,
        judge,
    };
    judge_lines(alloc, store, certificate, PROOF_LIMIT, lines)
}
