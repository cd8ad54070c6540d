//! The numbers of a line of a proof log.
ghost use Rattle.arc_base.specs.WordNumbers.{minus, value_after};
ghost use Rattle.arc_base.specs.Words.{words};
ghost use Rattle.proof_log.specs.Fronts.{EndsWord, IsFirstNumber};
ghost use Rattle.proof_log.specs.Reading.{is_bad, log_number, number_words, numbers, sign, sign_of};
ghost use Rattle.std.specs.List.{list_any};
ghost use Rattle.std.specs.Prelude.{◌≡◌, ◌<◌, ◌≤◌, ◌^◌, ◌-◌, ◌||◌, [], ◌∷◌, ℕ, length, ◌++◌, Some};
ghost use Rattle.std.specs.Prelude.{IsTrue, IsFalse, IfOk, OnOk, IsErrOf, IfNone, IfSome, true};
ghost use Rattle.std.specs.Prelude.{take};
ghost use Rattle.std.specs.Prelude.{drop, is_none, option_to_list, pos, if◌then◌else◌, List};
ghost use Rattle.std.specs.Str.{all_ascii_digits};

use crate::reading::LineKind;
use arc_base::{next_word, number};

/// What a letter in the second place says that the line does.
#[derive(Clone, Copy, Debug, PartialEq, Eq)]
pub enum Sign {
    /// No letter: the line adds a clause.
    Adds,
    /// The letter `d`.
    Drops,
    /// The letter `b`.
    Bounds,
}

/// The whole number that a word writes, if its absolute value is below 2^63.
fn log_number(word: &[u8]) -> Option<i64>
    ensures { result ≡ log_number word.now }
{
    number(word, i64::MAX as u64)
}

/// The number that the digits at the front write, and how many these are: all of them, or as many
/// as fit without a check.
fn front_digits(bytes: &[u8]) -> (u64, usize)
    ensures count { result.1 ≤ length bytes.now }
    ensures digits { all_ascii_digits (take result.1 bytes.now) ≡ true }
    ensures value { result.0 ≡ value_after 0 (take result.1 bytes.now) }
    ensures small { result.0 < 10 ^ 18 }
{
    let mut value = 0;
    for (count, byte) in bytes.iter().enumerate() {
        if !byte.is_ascii_digit() || value >= 100_000_000_000_000_000 {
            return (value, count);
        }
        value = 10 * value + u64::from(*byte - b'0');
    }
    (value, bytes.len())
}

/// What follows a word of `count` bytes at the front, if a space or nothing ends it; `None` says
/// nothing.
fn after_word(line: &[u8], count: usize) -> Option<&[u8]>
    requires { count ≤ length line.now }
    ensures { IfSome result (λ after. EndsWord (drop count line.now) after.now) }
{
    let (_, rest) = line.split_at(count);
    match rest {
        [] => Some(rest),
        [b' ', after @ ..] => Some(after),
        _ => None,
    }
}

/// Whether a line begins with a minus sign, and what follows that.
fn after_minus(line: &[u8]) -> (bool, &[u8])
    ensures minus { IsTrue result.0 → line.now ≡ 45 ∷ result.1.now }
    ensures none { IsFalse result.0 → line.now ≡ result.1.now }
{
    match line {
        [b'-', rest @ ..] => (true, rest),
        _ => (false, line),
    }
}

/// A number, or minus that number; minus zero is none.
fn signed(is_negative: bool, value: u64) -> Option<i64>
    requires { value < 10 ^ 18 }
    ensures { result ≡ (if is_negative then minus value else Some (pos value)) }
{
    if !is_negative {
        Some(value as i64)
    } else if value == 0 {
        None
    } else {
        Some(-(value as i64))
    }
}

/// The number at the front of a line, with what follows it, in one pass; `None` says nothing.
fn front_number(line: &[u8]) -> Option<(i64, &[u8])>
    ensures { IfSome result (λ found. IsFirstNumber line.now (Some found.0) found.1.now) }
{
    let (is_negative, digits) = after_minus(line);
    let (value, count) = front_digits(digits);
    if count == 0 {
        return None;
    }
    let number = signed(is_negative, value)?;
    let after = after_word(digits, count)?;
    Some((number, after))
}

/// Adds a number at the end.
fn push_number(all: &mut Vec<i64>, number: Option<i64>) -> Result<(), LineKind>
    ensures good { OnOk result (IsFalse (is_none number)) }
    ensures added { OnOk result (all.new.items ≡ all.old.items ++ option_to_list number) }
    ensures bad { IsErrOf result LineKind.BadNumber → IsTrue (is_none number) }
    ensures form { IsErrOf result LineKind.BadLine → ⊥ }
{
    let Some(number) = number else {
        return Err(LineKind::BadNumber);
    };
    if all.push(number).is_err() {
        return Err(LineKind::Memory);
    }
    Ok(())
}

/// Adds the numbers of the words at the end.
fn push_numbers(all: &mut Vec<i64>, line: &[u8]) -> Result<(), LineKind>
    ensures good { OnOk result (IsFalse (list_any is_bad (words line.now))) }
    ensures added { OnOk result (all.new.items ≡ all.old.items ++ numbers (words line.now)) }
    ensures bad { IsErrOf result LineKind.BadNumber → IsTrue (list_any is_bad (words line.now)) }
    ensures form { IsErrOf result LineKind.BadLine → ⊥ }
{
    let mut rest = line;
    'words: loop {
        if let Some((number, after)) = front_number(rest) {
            push_number(all, Some(number))?;
            rest = after;
        } else {
            let Some((word, after)) = next_word(rest) else {
                return Ok(());
            };
            push_number(all, log_number(word))?;
            rest = after;
        }
    }
}

/// What a word in the second place says.
fn sign_of(word: &[u8]) -> Sign
    ensures { result ≡ sign_of word.now }
{
    if word == b"d".as_slice() {
        return Sign::Drops;
    }
    if word == b"b".as_slice() {
        return Sign::Bounds;
    }
    Sign::Adds
}

/// What the first word of a line writes, a number or none, and what follows it; `None` where the
/// line has no word.
fn next_number(line: &[u8]) -> Option<(Option<i64>, &[u8])>
    ensures none { IfNone result (words line.now ≡ []) }
    ensures first { IfSome result (λ found. IsFirstNumber line.now found.0 found.1.now) }
{
    if let Some((number, after)) = front_number(line) {
        return Some((Some(number), after));
    }
    let (word, after) = next_word(line)?;
    Some((log_number(word), after))
}

/// The sign of a line, of which this follows the first word, and what its other numbers are in.
fn after_sign(rest: &[u8]) -> (Sign, &[u8])
    ensures sign { (first : List ℕ) → result.0 ≡ sign (first ∷ words rest.now) }
    ensures words { (first : List ℕ) →
        number_words (first ∷ words rest.now) ≡ first ∷ words result.1.now }
{
    if front_number(rest).is_some() {
        return (Sign::Adds, rest);
    }
    let Some((second, after)) = next_word(rest) else {
        return (Sign::Adds, rest);
    };
    match sign_of(second) {
        Sign::Adds => (Sign::Adds, rest),
        sign => (sign, after),
    }
}

/// Replaces the numbers by those of a line, and gives its sign.
pub(crate) fn read_numbers(all: &mut Vec<i64>, line: &[u8]) -> Result<Sign, LineKind>
    ensures good { OnOk result (IsFalse (list_any is_bad (number_words (words line.now)))) }
    ensures all { OnOk result (all.new.items ≡ numbers (number_words (words line.now))) }
    ensures sign { IfOk result (λ found. found ≡ sign (words line.now)) }
    ensures bad { IsErrOf result LineKind.BadNumber →
        IsTrue (list_any is_bad (number_words (words line.now))) }
    ensures form { IsErrOf result LineKind.BadLine → ⊥ }
{
    all.clear();
    let Some((first, rest)) = next_number(line) else {
        return Ok(Sign::Adds);
    };
    push_number(all, first)?;
    let (sign, rest) = after_sign(rest);
    push_numbers(all, rest)?;
    Ok(sign)
}
