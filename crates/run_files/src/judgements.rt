//! The judgement of a certificate or a proof.
ghost use Rattle.run_files.specs.Answers.{IsJudging};
ghost use Rattle.run_files.specs.Judgements.{judgement_status, judgement_text};
ghost use Rattle.std.specs.Prelude.{◌≡◌, ◌≤◌, IfOk};

use crate::outcome::Done;
use arc_base::{CertKind, List, Name};
use std::alloc::{AllocError, Global};

/// The judgement of a certificate or a proof.
#[derive(Clone, Copy, Debug, PartialEq, Eq)]
pub enum Judgement {
    Accepted,
    /// The first line that is rejected, counted from 1, and why.
    Rejected(u64, CertKind),
}

/// The line that says which line is rejected, and why.
fn rejected_text(alloc: Global, line: u64, kind: CertKind) -> Result<Vec<u8>, AllocError>
    ensures { IfOk result (λ text. text.items ≡ judgement_text (Judgement.Rejected line kind)) }
{
    let mut text = Vec::from_slice(alloc, b"rejected ")?;
    let line = line.to_string(alloc)?;
    text.extend_from_slice(line.as_bytes())?;
    text.extend_from_slice(b" ")?;
    text.extend_from_slice(kind.word())?;
    text.extend_from_slice(b"\n")?;
    Ok(text)
}

/// The line that prints a judgement.
fn judgement_text(alloc: Global, judgement: Judgement) -> Result<Vec<u8>, AllocError>
    ensures { IfOk result (λ text. text.items ≡ judgement_text judgement) }
{
    match judgement {
        Judgement::Accepted => Vec::from_slice(alloc, b"accepted\n"),
        Judgement::Rejected(line, kind) => rejected_text(alloc, line, kind),
    }
}

fn judgement_status(judgement: Judgement) -> u8
    ensures value { result ≡ judgement_status judgement }
    ensures small { result ≤ 1 }
{
    match judgement {
        Judgement::Accepted => 0,
        Judgement::Rejected(_, _) => 1,
    }
}

/// The answer that prints a judgement: its line, no files, and its status, 0 or 1.
pub fn told(alloc: Global, judgement: Judgement) -> Result<Done, AllocError>
    ensures text { IfOk result (λ done. done.text ≡ judgement_text judgement) }
    ensures status { IfOk result (λ done. done.status ≡ judgement_status judgement) }
    ensures own { IfOk result IsJudging }
{
    let text = judgement_text(alloc, judgement)?;
    Ok(Done {
        text: Name::of(text),
        writes: List::make(alloc),
        status: judgement_status(judgement),
    })
}
