//! The second reading of an old report: its blocks, line by line.
ghost use Rattle.reach_commands.specs.ReportLines.{ReadsHeld};
ghost use Rattle.run_files.specs.Answers.{OnlyReads};
ghost use Rattle.std.specs.Prelude.{IfSome};

use arc_base::{List, Memory, Name};
use arc_outside::Store;
use arc_recheck::HeldBlocks;
use net_model::{Document, Network, Verdict};
use run_files::{LineJudge, Stop, judge_lines};
use std::alloc::Global;
use std::ops::ControlFlow;

/// The blocks of an old report, read for one network and document.
#[derive(Drop)]
struct HeldLines<'a> {
    net: &'a Network,
    doc: &'a Document,
    blocks: HeldBlocks,
}

impl<'a> LineJudge for HeldLines<'a> {
    ghost use Rattle.arc_recheck.specs.HeldLines.{HasComeTo};
    ghost use Rattle.reach_commands.specs.RecheckRuns.{held_of};
    ghost use Rattle.std.specs.Prelude.{◌≡◌, ◌^◌, ℕ, List as Items};

    type Outcome = List<Verdict>;

    ghost room = { λ _. 2 ^ 64 };

    ghost can_go_on = { λ _. Unit {0} };

    ghost leads_to = { λ judge ls held. (text : Items ℕ) →
        HasComeTo judge.net.now judge.doc.now text ls judge.blocks →
        held ≡ held_of judge.net.now judge.doc.now text };

    ghost refuses = { λ _ _ _. ⊥ };

    fn line(
        self,
        _alloc: Global,
        line: &[u8],
    ) -> Result<ControlFlow<List<Verdict>, HeldLines<'a>>, Stop> {
        let net = self.net;
        let doc = self.doc;
        match self.blocks.line(net, doc, line) {
            Ok(ControlFlow::Continue(blocks)) => {
                Ok(ControlFlow::Continue(HeldLines { net, doc, blocks }))
            }
            Ok(ControlFlow::Break(held)) => Ok(ControlFlow::Break(held)),
            Err(Memory) => Err(Stop::Memory),
        }
    }

    fn end(self, _alloc: Global) -> Result<List<Verdict>, Stop> {
        Ok(self.blocks.end())
    }
}

/// The verdicts of the blocks of an old report that can be read, or a refusal of its file.
pub fn read_held<S: Store>(
    alloc: Global,
    net: &Network,
    doc: &Document,
    report: &Name,
    limit: u64,
    store: &mut S,
) -> Result<List<Verdict>, Stop>
    ensures told { IfSome (S.held store.old) (λ files.
        ReadsHeld limit net.now doc.now report.now files result) }
    ensures reads { OnlyReads limit S.held S.faults S.absences S.taken store.old store.new result }
{
    let blocks = HeldBlocks::make(alloc);
    let judge = HeldLines { net, doc, blocks };
    judge_lines(alloc, store, report, limit, judge)
}
