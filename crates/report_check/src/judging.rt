//! Judging one line of a report.
ghost use Rattle.net_model.specs.Forwarding.{HasEnds};
ghost use Rattle.net_model.specs.Packets.{subject};
ghost use Rattle.net_model.specs.Validity.{IsValid};
ghost use Rattle.policy_report.specs.Steps.{standing, step};
ghost use Rattle.report_check.specs.Lines.{LeadsTo, MayCome};
ghost use Rattle.report_check.specs.Outcomes.{IsRightAt};
ghost use Rattle.std.specs.Prelude.{◌≡◌, ◌↔◌, ◌<◌, [], List, Result, All, IfOk, IsTrue};

use crate::outcome::Outcome;
use arc_base::{CertKind, Memory};
use net_model::{Document, Network, Policy, Verdict};
use policy_report::{CertFault, CertForm, Got, Reader};
use witness_check::accepts;

/// Whether the verdict on the policy at this index is right. The cost is that of `accepts`.
pub fn is_right_at(net: &Network, policies: &[Policy], which: u32, verdict: &Verdict) -> bool
    requires valid { IsValid net.now }
    requires ends { All (λ policy. HasEnds net.now (subject policy)) policies.now }
    ensures { IsTrue result ↔ IsRightAt net.now policies.now which verdict.now }
{
    match policies.get(which as usize) {
        Some(policy) => accepts(net, policy, verdict),
        None => false,
    }
}

/// What follows a line.
#[derive(Clone, Copy)]
pub(crate) enum Next {
    /// Another line, of the block that begins at this line.
    Line(u64),
    /// The text may end: this line was `end`.
    End,
    /// Nothing: this is the outcome.
    Done(Outcome),
}

/// What follows a line that only the certificate of a repair has: its number is rejected.
fn no_report(number: u64) -> Next
    ensures { result
        ≡ Next.Done (Outcome.Rejected (record { line = number; kind = CertKind.Form })) }
{
    Next::Done(Outcome::Rejected(CertFault {
        line: number,
        kind: CertKind::Form,
    }))
}

/// Judges the line of this number, whose block begins at line `first`.
pub(crate) fn judge_line(
    net: &Network,
    doc: &Document,
    reader: &mut Reader,
    first: u64,
    number: u64,
    line: &[u8],
) -> Result<Next, Memory>
    requires valid { IsValid net.now }
    requires ends { All (λ policy. HasEnds net.now (subject policy)) doc.now.policies }
    requires number { number < 18446744073709551615 }
    ensures reader { IfOk result (λ next. MayCome next →
        standing reader.new ≡ (step net.now doc.now [] (standing reader.old) line.now).0) }
    ensures next { IfOk result (λ next. (rest : List (Result Got CertFault)) →
        LeadsTo net.now doc.now.policies first number
        (step net.now doc.now [] (standing reader.old) line.now).1 rest next) }
{
    let next = match reader.report_line(net, doc, line) {
        Ok(Got::More) => Next::Line(first),
        Ok(Got::Head(CertForm::Report)) => Next::Line(number + 1),
        Ok(Got::Head(_form)) => no_report(number),
        Ok(Got::Edit(_place)) => no_report(number),
        Ok(Got::Step(_step)) => no_report(number),
        Ok(Got::Verdict(which, verdict)) => {
            if is_right_at(net, doc.policies.slice(), which, &verdict) {
                Next::Line(number + 1)
            } else {
                Next::Done(Outcome::Rejected(CertFault {
                    line: first,
                    kind: CertKind::Witness,
                }))
            }
        }
        Ok(Got::End) => Next::End,
        Err(fault) => {
            if fault.kind == CertKind::Memory {
                return Err(Memory);
            }
            Next::Done(Outcome::Rejected(fault))
        }
    };
    Ok(next)
}
