//! The judgement of a line of a proof.
ghost use Rattle.proof_check.specs.Outcomes.{fault_kind, line_rejection, line_after};
ghost use Rattle.proof_check.specs.View.{known};
ghost use Rattle.proof_log.specs.Reading.{formed, ok_or_bad_line, reading};
ghost use Rattle.std.specs.Prelude.{◌≡◌, ◌<◌, ◌^◌, All, IfOk, IsNone};
ghost use Rattle.std.specs.Prelude.{unsigned_abs};

use crate::checker::Checker;
use crate::faults::StepFault;
use crate::rejections::Rejection;
use arc_base::{CertKind, Memory};
use proof_log::{LineKind, Sign, added, interpret, line_numbers};
use std::alloc::Global;
use std::mem;

/// The kind of reason for which a step is not accepted, without its place.
pub fn fault_kind(fault: StepFault) -> CertKind
    ensures { result ≡ fault_kind fault }
{
    match fault {
        StepFault::IdNotRising => CertKind::IdNotRising,
        StepFault::NegativeHint(_) => CertKind::NegativeHint,
        StepFault::UnknownId(_) => CertKind::UnknownId,
        StepFault::HintNotUnit(_) => CertKind::HintNotUnit,
        StepFault::NoConflict => CertKind::NoConflict,
        StepFault::BoundTooLow => CertKind::BoundTooLow,
        StepFault::BoundTooHigh => CertKind::BoundTooHigh,
        StepFault::Memory => CertKind::Memory,
    }
}

/// Judges the numbers of a line that adds a clause, and takes its step where that is accepted.
fn judge_added(checker: &mut Checker, numbers: &[i64]) -> Result<Option<Rejection>, Memory>
    requires { All (λ z. unsigned_abs z < 2 ^ 63) numbers.now }
    ensures rejection { IfOk result (λ r. r
        ≡ line_rejection (ok_or_bad_line (formed Sign.Adds numbers.now)) (known checker.old)) }
    ensures after { IfOk result (λ r. IsNone r → known checker.new
        ≡ line_after (ok_or_bad_line (formed Sign.Adds numbers.now)) (known checker.old)) }
{
    let Some((id, lits, hints)) = added(numbers) else {
        return Ok(Some(Rejection::Form));
    };
    match checker.add_numbers(id, lits, hints) {
        Ok(()) => Ok(None),
        Err(StepFault::Memory) => Err(Memory),
        Err(fault) => Ok(Some(Rejection::Fault(fault))),
    }
}

/// Judges the numbers of a line of this sign, and takes its step where that is accepted.
fn judge_numbers(
    alloc: Global,
    checker: &mut Checker,
    sign: Sign,
    numbers: &[i64],
) -> Result<Option<Rejection>, Memory>
    requires { All (λ z. unsigned_abs z < 2 ^ 63) numbers.now }
    ensures rejection { IfOk result (λ r.
        r ≡ line_rejection (ok_or_bad_line (formed sign numbers.now)) (known checker.old)) }
    ensures after { IfOk result (λ r. IsNone r → known checker.new
        ≡ line_after (ok_or_bad_line (formed sign numbers.now)) (known checker.old)) }
{
    if matches!(sign, Sign::Adds) {
        return judge_added(checker, numbers);
    }
    match interpret(alloc, sign, numbers)? {
        Some(step) => match checker.step(&step) {
            Ok(()) => Ok(None),
            Err(StepFault::Memory) => Err(Memory),
            Err(fault) => Ok(Some(Rejection::Fault(fault))),
        },
        None => Ok(Some(Rejection::Form)),
    }
}

/// Judges a line, and takes its step where that is accepted.
pub fn judge_line(
    alloc: Global,
    checker: &mut Checker,
    line: &[u8],
) -> Result<Option<Rejection>, Memory>
    ensures rejection { IfOk result (λ r.
        r ≡ line_rejection (reading line.now) (known checker.old)) }
    ensures after { IfOk result (λ r. IsNone r →
        known checker.new ≡ line_after (reading line.now) (known checker.old)) }
{
    let mut numbers = mem::replace(&mut checker.numbers, Vec::new(alloc));
    let judged = match line_numbers(&mut numbers, line) {
        Ok(None) => Ok(None),
        Ok(Some(sign)) => judge_numbers(alloc, checker, sign, &numbers),
        Err(LineKind::Memory) => Err(Memory),
        Err(_) => Ok(Some(Rejection::Form)),
    };
    checker.numbers = numbers;
    judged
}
