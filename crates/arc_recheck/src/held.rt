//! The blocks that an old report holds.
ghost use Rattle.arc_base.specs.TextLines.{lines};
ghost use Rattle.arc_recheck.specs.Held.{held_verdicts, is_report_head, told_by, IsTaken};
ghost use Rattle.policy_report.specs.Rereading.{answers};
ghost use Rattle.policy_report.specs.Steps.{standing, start, step};
ghost use Rattle.std.specs.ControlFlow.{MatchControlFlow};
ghost use Rattle.std.specs.Prelude.{◌≡◌, ◌++◌, ◌∷◌, ℕ, [], List as Items, IfOk, IsTrue, OnOk};

use arc_base::{CertKind, List, Memory};
use net_model::{Document, Network, Verdict};
use policy_report::{CertForm, Got, Reader};
use std::alloc::Global;
use std::ops::ControlFlow;

/// What a line says of the blocks.
#[derive(Drop)]
enum Told {
    /// A block ends, with this verdict.
    Block(Verdict),
    /// The line is a part of the report, and no block ends.
    Other,
    /// The line is rejected.
    Refused,
}

/// The verdicts of the blocks that a report holds, in the order of the policies, up to the line
/// that comes next. They end before the first line that is not of the form; a text that does not
/// begin as a report holds none. All lines are taken for the same network and document.
#[derive(Drop)]
pub struct HeldBlocks {
    reader: Reader,
    // Whether the first line came: the head of a report.
    begun: bool,
    held: List<Verdict>,
}

impl HeldBlocks {
    ghost use Rattle.arc_recheck.specs.HeldLines.{HasComeTo};

    /// No line came.
    pub fn make(alloc: Global) -> HeldBlocks
        ensures { (net : Network) (doc : Document) (text : Items ℕ) →
            HasComeTo net doc text (lines text) result }
    {
        HeldBlocks {
            reader: Reader::make(alloc),
            begun: false,
            held: List::make(alloc),
        }
    }

    /// Takes the next line, without its line feed. Another may say more, or these are all the
    /// blocks that are held, whatever follows. The time is linear in the bytes, and for a `closed`
    /// or `side` line in the routers.
    pub fn line(
        self,
        net: &Network,
        doc: &Document,
        line: &[u8],
    ) -> Result<ControlFlow<List<Verdict>, HeldBlocks>, Memory>
        ensures { (text : Items ℕ) (rest : Items (Items ℕ)) →
            HasComeTo net.now doc.now text (line.now ∷ rest) self →
            IfOk result (λ flow. MatchControlFlow flow (HasComeTo net.now doc.now text rest)
            (λ held. held ≡ held_verdicts (answers net.now doc.now [] start (lines text)))) }
    {
        let begun = true;
        let mut reader = self.reader;
        let mut held = self.held;
        if !self.begun {
            if !takes_head(net, doc, &mut reader, line)? {
                return Ok(ControlFlow::Break(held));
            }
            return Ok(ControlFlow::Continue(HeldBlocks {
                reader,
                begun,
                held,
            }));
        }
        match take_line(net, doc, &mut reader, line)? {
            Told::Block(verdict) => {
                add(&mut held, verdict)?;
                Ok(ControlFlow::Continue(HeldBlocks {
                    reader,
                    begun,
                    held,
                }))
            }
            Told::Other => Ok(ControlFlow::Continue(HeldBlocks {
                reader,
                begun,
                held,
            })),
            Told::Refused => Ok(ControlFlow::Break(held)),
        }
    }

    /// What is held where no other line comes.
    pub fn end(self) -> List<Verdict>
        ensures { (net : Network) (doc : Document) (text : Items ℕ) →
            HasComeTo net doc text [] self →
            result ≡ held_verdicts (answers net doc [] start (lines text)) }
    {
        self.held
    }
}

/// Takes the first line, and says whether it is the head of a report.
fn takes_head(
    net: &Network,
    doc: &Document,
    reader: &mut Reader,
    line: &[u8],
) -> Result<bool, Memory>
    ensures head { IfOk result (λ head.
        head ≡ is_report_head (step net.now doc.now [] (standing reader.old) line.now).1) }
    ensures reader { IfOk result (λ head. IsTrue head →
        standing reader.new ≡ (step net.now doc.now [] (standing reader.old) line.now).0) }
{
    match reader.report_line(net, doc, line) {
        Ok(Got::Head(CertForm::Report)) => Ok(true),
        Ok(Got::Head(CertForm::Repaired(_, _) | CertForm::NoRepair(_))) => Ok(false),
        Ok(Got::Verdict(_, _verdict)) => Ok(false),
        Ok(Got::Step(_step)) => Ok(false),
        Ok(Got::More | Got::Edit(_) | Got::End) => Ok(false),
        Err(fault) => {
            if fault.kind == CertKind::Memory {
                return Err(Memory);
            }
            Ok(false)
        }
    }
}

/// Takes the next line.
fn take_line(
    net: &Network,
    doc: &Document,
    reader: &mut Reader,
    line: &[u8],
) -> Result<Told, Memory>
    ensures told { IfOk result (λ told.
        told ≡ told_by (step net.now doc.now [] (standing reader.old) line.now).1) }
    ensures reader { IfOk result (λ told. IsTaken told →
        standing reader.new ≡ (step net.now doc.now [] (standing reader.old) line.now).0) }
{
    let told = match reader.report_line(net, doc, line) {
        Ok(Got::Verdict(_, verdict)) => Told::Block(verdict),
        Ok(Got::Step(_step)) => Told::Other,
        Ok(Got::More | Got::Head(_) | Got::Edit(_) | Got::End) => Told::Other,
        Err(fault) => {
            if fault.kind == CertKind::Memory {
                return Err(Memory);
            }
            Told::Refused
        }
    };
    Ok(told)
}

/// Adds a verdict at the end.
fn add(held: &mut List<Verdict>, verdict: Verdict) -> Result<(), Memory>
    ensures { OnOk result (held.new ≡ held.old ++ verdict ∷ []) }
{
    if held.len() == u32::MAX {
        return Err(Memory);
    }
    held.push(verdict)
}
