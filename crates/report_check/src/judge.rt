//! Judging a text line by line.
ghost use Rattle.arc_base.specs.TextLines.{lines};
ghost use Rattle.net_model.specs.Forwarding.{HasEnds};
ghost use Rattle.net_model.specs.Packets.{subject};
ghost use Rattle.net_model.specs.Validity.{IsValid};
ghost use Rattle.std.specs.ControlFlow.{continue_value, MatchControlFlow};
ghost use Rattle.std.specs.Prelude.{◌≡◌, ◌+◌, ◌<◌, ◌∷◌, ℕ, [], List, All, IfOk, IfSome};

use crate::judging::{Next, judge_line};
use crate::outcome::Outcome;
use arc_base::{CertKind, Memory};
use net_model::{Document, Network};
use policy_report::{CertFault, Reader};
use std::alloc::Global;
use std::ops::ControlFlow;

/// The state of judging a report, before its next line. It holds what was read of the current
/// block, but no line. All calls take the same network and document.
#[derive(Drop)]
pub struct ReportJudge {
    reader: Reader,
    // The line where the block of the next line begins.
    first: u64,
    number: u64,
    // Whether the last line was `end`.
    ended: bool,
}

impl ReportJudge {
    ghost use Rattle.report_check.specs.LineByLine.{HasComeTo, IsJudgedTo};

    /// A judge before the first line.
    pub fn make(alloc: Global) -> ReportJudge
        ensures come { (net : Network) (doc : Document) (text : List ℕ) →
            HasComeTo net doc text (lines text) result }
        ensures number { result.number ≡ 1 }
    {
        ReportJudge {
            reader: Reader::make(alloc),
            first: 1,
            number: 1,
            ended: false,
        }
    }

    /// Judges the next line, given without its line feed: `Continue` if another may come, `Break`
    /// with the outcome if it is known whatever follows. Reading a line takes time linear in its
    /// bytes, and for a `closed` or `side` line in the routers. A witness is judged by going over
    /// the network for each of its lines; the `closed` lines of a block are also compared pair by
    /// pair.
    pub fn line(
        self,
        net: &Network,
        doc: &Document,
        line: &[u8],
    ) -> Result<ControlFlow<Outcome, ReportJudge>, Memory>
        requires valid { IsValid net.now }
        requires ends { All (λ policy. HasEnds net.now (subject policy)) doc.now.policies }
        requires number { self.number < 18446744073709551615 }
        ensures judged { (text : List ℕ) (rest : List (List ℕ)) →
            HasComeTo net.now doc.now text (line.now ∷ rest) self →
            IfOk result (λ flow. MatchControlFlow flow
            (HasComeTo net.now doc.now text rest) (IsJudgedTo net.now doc.now text)) }
        ensures number { IfOk result (λ flow. IfSome (continue_value flow)
            (λ next. next.number ≡ self.number + 1)) }
    {
        let mut reader = self.reader;
        match judge_line(net, doc, &mut reader, self.first, self.number, line)? {
            Next::Line(first) => Ok(ControlFlow::Continue(ReportJudge {
                reader,
                first,
                number: self.number + 1,
                ended: false,
            })),
            Next::End => Ok(ControlFlow::Continue(ReportJudge {
                reader,
                first: self.first,
                number: self.number + 1,
                ended: true,
            })),
            Next::Done(outcome) => Ok(ControlFlow::Break(outcome)),
        }
    }

    /// The outcome if no other line comes.
    pub fn end(self) -> Outcome
        ensures { (net : Network) (doc : Document) (text : List ℕ) →
            HasComeTo net doc text [] self → IsJudgedTo net doc text result }
    {
        if self.ended {
            return Outcome::Accepted;
        }
        Outcome::Rejected(CertFault {
            line: self.number,
            kind: CertKind::NoEnd,
        })
    }
}
