//! Steps from the lines of a proof log.
ghost use Rattle.proof_log.specs.Reading.{formed, ok_or_bad_line, reading, IsFaultOfLine};
ghost use Rattle.std.specs.Prelude.{◌≡◌, ◌<◌, ◌^◌, All, IfOk, IfErr, IfSome, IsErrOf, IsNone, None};
ghost use Rattle.std.specs.Prelude.{Ok, OnOk, unsigned_abs};

use crate::interpreting::interpret;
use crate::numbers::{Sign, read_numbers};
use crate::steps::Step;
use arc_base::{Memory, without_return};
use cnf_types::is_comment;
use std::alloc::Global;

/// Why a line of a proof log is no step.
#[derive(Clone, Copy, Debug, PartialEq, Eq)]
pub enum LineKind {
    /// The line has none of the three forms, with the numbers within their ranges.
    BadLine,
    /// A word that has to be a number is none, or its absolute value is 2^63 or more.
    BadNumber,
    /// Out of memory.
    Memory,
}

impl From<Memory> for LineKind {
    ghost use Rattle.proof_log.specs.declared.reading.LineKind.TheVariants.{Memory};

    ghost from_gives = { λ _ kind. kind ≡ Memory };

    fn from(_memory: Memory) -> LineKind {
        LineKind::Memory
    }
}

/// Replaces the numbers by those of a line of a proof log, and gives its sign; `None` is a comment,
/// which begins with `c`, or an empty line. The line is given without its line feed; a carriage
/// return may end it. Whether the numbers have one of the three forms is not checked.
#[tactic(auto, unfolding(crate::specs::Reading::reading))]
pub fn line_numbers(numbers: &mut Vec<i64>, line: &[u8]) -> Result<Option<Sign>, LineKind>
    ensures none { IfOk result (λ sign. IsNone sign → reading line.now ≡ Ok None) }
    ensures sign { IfOk result (λ sign. IfSome sign (λ sign.
        reading line.now ≡ ok_or_bad_line (formed sign numbers.new.items))) }
    ensures within { OnOk result (All (λ z. unsigned_abs z < 2 ^ 63) numbers.new.items) }
    ensures form { IsErrOf result LineKind.BadLine → ⊥ }
    ensures fault { IfErr result (IsFaultOfLine line.now) }
{
    let text = without_return(line);
    if text.is_empty() || is_comment(line) {
        numbers.clear();
        return Ok(None);
    }
    let sign = read_numbers(numbers, text)?;
    Ok(Some(sign))
}

/// The step that a line of a proof log writes, or `None` for a comment, which begins with `c`, or
/// an empty line. The line is given without its line feed; a carriage return may end it. Lines are
/// `ID LITS.. 0 HINTS.. 0`, `NUM d IDS.. 0` and `ID b W 0`, with ids from 1 to 2^63 - 1, NUM from
/// 0, and W below 2^32.
pub fn step(alloc: Global, line: &[u8]) -> Result<Option<Step>, LineKind>
    ensures step { IfOk result (λ s. reading line.now ≡ Ok s) }
    ensures fault { IfErr result (IsFaultOfLine line.now) }
{
    let mut numbers = Vec::new(alloc);
    let Some(sign) = line_numbers(&mut numbers, line)? else {
        return Ok(None);
    };
    match interpret(alloc, sign, &numbers)? {
        Some(step) => Ok(Some(step)),
        None => Err(LineKind::BadLine),
    }
}
