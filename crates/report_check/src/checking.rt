//! Judging a text as a whole.
ghost use Rattle.arc_base.specs.TextLines.{lines};
ghost use Rattle.net_model.specs.Forwarding.{HasEnds};
ghost use Rattle.net_model.specs.Packets.{subject};
ghost use Rattle.net_model.specs.Validity.{IsValid};
ghost use Rattle.policy_report.specs.Rereading.{answers};
ghost use Rattle.policy_report.specs.Steps.{start};
ghost use Rattle.report_check.specs.Outcomes.{IsReportOutcome, IsReport};
ghost use Rattle.std.specs.Prelude.{◌≡◌, ◌↔◌, ◌≤◌, [], length, All, IfOk};

use crate::judge::ReportJudge;
use crate::laws::reports_are_accepted;
use crate::outcome::Outcome;
use arc_base::{Memory, first_line};
use net_model::{Document, Network};
use std::alloc::Global;
use std::ops::ControlFlow;

/// Judges a text as a report on the policies of the document over the network, line by line as a
/// `ReportJudge` does.
pub fn check_report(
    alloc: Global,
    net: &Network,
    doc: &Document,
    text: &[u8],
) -> Result<Outcome, Memory>
    requires valid { IsValid net.now }
    requires ends { All (λ policy. HasEnds net.now (subject policy)) doc.now.policies }
    requires few { length doc.now.policies ≤ 4294967295 }
    ensures outcome { IfOk result (IsReportOutcome net.now doc.now.policies 1 1
        (answers net.now doc.now [] start (lines text.now))) }
    ensures accepted { IfOk result (λ o. (o ≡ Outcome.Accepted) ↔
        IsReport net.now doc.now text.now) }
{
    reports_are_accepted();
    let mut judge = ReportJudge::make(alloc);
    let mut rest = text;
    while !rest.is_empty() {
        let (line, after) = first_line(rest);
        match judge.line(net, doc, line)? {
            ControlFlow::Continue(next) => judge = next,
            ControlFlow::Break(outcome) => return Ok(outcome),
        }
        rest = after;
    }
    Ok(judge.end())
}
