//! Refusals, and the line that prints one.
ghost use Rattle.run_files.specs.Reading.{StopsFor};
ghost use Rattle.run_files.specs.Refusals.{reason_words, refusal_line, refusal_of};
ghost use Rattle.std.specs.Prelude.{◌≡◌, ◌⊎◌, IfOk};

use crate::outcome::{FileRefusal, Reason, Stop};
use arc_base::{Kind, Memory, Name};
use arc_outside::{Fault, ReadAll};
use std::alloc::{AllocError, Global};

/// The refusal of a file for this, at a number.
pub fn refused(alloc: Global, file: &Name, number: u32, kind: Kind) -> Stop
    ensures { (result ≡ Stop.Memory) ⊎ (result ≡ Stop.Refused (refusal_of file.now number kind)) }
{
    match Name::make(alloc, file.bytes()) {
        Ok(name) => Stop::Refused(FileRefusal {
            name,
            number,
            reason: Reason::Kind(kind),
        }),
        Err(Memory) => Stop::Memory,
    }
}

/// How a command stops where a file was not read whole.
pub(crate) fn stop_of(alloc: Global, file: &Name, fault: ReadAll) -> Stop
    ensures { StopsFor file.now fault result }
{
    match fault {
        ReadAll::TooLong => refused(alloc, file, 0, Kind::TooLong),
        ReadAll::Fault(Fault::Missing) => refused(alloc, file, 0, Kind::Missing),
        ReadAll::Fault(Fault::Failed) => Stop::Failed,
        ReadAll::Fault(Fault::Memory) => Stop::Memory,
    }
}

fn reason_words(alloc: Global, reason: Reason) -> Result<Vec<u8>, AllocError>
    ensures { IfOk result (λ text. text.items ≡ reason_words reason) }
{
    match reason {
        Reason::Kind(kind) => kind.words(alloc),
        Reason::BadHeader => Vec::from_slice(alloc, b"bad-header"),
        Reason::BadNumber => Vec::from_slice(alloc, b"bad-number"),
        Reason::ClauseCount => Vec::from_slice(alloc, b"clause-count"),
    }
}

/// The line, with its end.
#[tactic(auto, unfolding(crate::specs::Refusals::refusal_line))]
pub fn line_of(alloc: Global, refusal: &FileRefusal) -> Result<Vec<u8>, AllocError>
    ensures { IfOk result (λ text. text.items ≡ refusal_line refusal.now) }
{
    let mut text = Vec::from_slice(alloc, b"refused ")?;
    text.extend_from_slice(refusal.name.bytes())?;
    text.extend_from_slice(b" ")?;
    let number = refusal.number.to_string(alloc)?;
    text.extend_from_slice(number.as_bytes())?;
    text.extend_from_slice(b" ")?;
    let reason = reason_words(alloc, refusal.reason)?;
    text.extend_from_slice(reason.as_slice())?;
    text.extend_from_slice(b"\n")?;
    Ok(text)
}
