//! The step that the numbers of a line write.
ghost use Rattle.cnf_types.specs.Dimacs.{is_zero, literal_of};
ghost use Rattle.proof_log.specs.Reading.{add_of, drop_of, bound_of, is_positive_number, formed};
ghost use Rattle.std.specs.List.{list_all, slice_split};
ghost use Rattle.std.specs.Prelude.{◌≡◌, ◌<◌, ◌^◌, ◌-◌, [], ◌∷◌, ℤ, None, length, map, take, false};
ghost use Rattle.std.specs.Prelude.{All, IfOk, IfNone, IfSome, Some, unsigned_abs};

use crate::numbers::Sign;
use crate::steps::Step;
use arc_base::{List, Memory};
use cnf_types::Lit;
use std::alloc::Global;

/// Whether a number is 0.
fn is_zero(number: i64) -> bool
    ensures { result ≡ is_zero number }
{
    number == 0
}

/// What comes before the first 0 and after it, or `None` if there is no 0.
fn until_zero(numbers: &[i64]) -> Option<(&[i64], &[i64])>
    ensures none { IfNone result (slice_split is_zero numbers.now ≡ numbers.now ∷ []) }
    ensures found { IfSome result (λ found.
        slice_split is_zero numbers.now ≡ found.0.now ∷ slice_split is_zero found.1.now) }
    ensures free { IfSome result (λ found. All (λ z. is_zero z ≡ false) found.0.now) }
    ensures front { IfSome result (λ found. found.0.now ≡ take (length found.0.now) numbers.now) }
{
    for (place, number) in numbers.iter().enumerate() {
        if is_zero(*number) {
            return Some((&numbers[..place], &numbers[place + 1..]));
        }
    }
    None
}

#[tactic(auto, using(crate::proofs::Zeros::no_drop_at))]
/// What comes before the first 0, if that is the last number.
fn one_part(numbers: &[i64]) -> Option<&[i64]>
    ensures part { IfSome result (λ part. slice_split is_zero numbers.now ≡ part.now ∷ [] ∷ []) }
    ensures none { IfNone result ((num : ℤ) →
        drop_of num (slice_split is_zero numbers.now) ≡ None) }
{
    let (part, rest) = until_zero(numbers)?;
    if rest.is_empty() { Some(part) } else { None }
}

#[tactic(auto, using(crate::proofs::Zeros::no_add_at))]
/// What comes before the first 0 and what is between it and the second, if that is the last number.
fn two_parts(numbers: &[i64]) -> Option<(&[i64], &[i64])>
    ensures parts { IfSome result (λ parts.
        slice_split is_zero numbers.now ≡ parts.0.now ∷ parts.1.now ∷ [] ∷ []) }
    ensures free { IfSome result (λ parts. All (λ z. is_zero z ≡ false) parts.0.now) }
    ensures front { IfSome result (λ parts. parts.0.now ≡ take (length parts.0.now) numbers.now) }
    ensures none { IfNone result ((id : ℤ) → add_of id (slice_split is_zero numbers.now) ≡ None) }
{
    let (first, rest) = until_zero(numbers)?;
    let (second, rest) = until_zero(rest)?;
    if rest.is_empty() {
        Some((first, second))
    } else {
        None
    }
}

/// The literals of numbers other than 0.
fn literals(alloc: Global, numbers: &[i64]) -> Result<List<Lit>, Memory>
    requires nonzero { All (λ z. is_zero z ≡ false) numbers.now }
    requires fits { All (λ z. unsigned_abs z < 2 ^ 63) numbers.now }
    ensures { IfOk result (λ lits. lits ≡ map literal_of numbers.now) }
{
    let mut lits = Vec::with_capacity(alloc, numbers.len())?;
    for number in numbers {
        lits.push(Lit::make(number.unsigned_abs(), *number > 0))?;
    }
    List::of(lits)
}

/// The hints as they are.
fn hints(alloc: Global, numbers: &[i64]) -> Result<List<i64>, Memory>
    ensures { IfOk result (λ hints. hints ≡ numbers.now) }
{
    List::of(Vec::from_slice(alloc, numbers)?)
}

/// The absolute values of positive numbers.
fn ids(alloc: Global, numbers: &[i64]) -> Result<List<u64>, Memory>
    ensures { IfOk result (λ ids. ids ≡ map unsigned_abs numbers.now) }
{
    let mut ids = Vec::with_capacity(alloc, numbers.len())?;
    for number in numbers {
        ids.push(number.unsigned_abs())?;
    }
    List::of(ids)
}

/// Whether each number is above 0.
fn all_positive(numbers: &[i64]) -> bool
    ensures { result ≡ list_all is_positive_number numbers.now }
{
    numbers.iter().all(|number| *number > 0)
}

/// The id, the numbers of the literals and the hints of `ID LITS 0 HINTS 0`, from what follows the
/// id.
fn add_parts(id: i64, rest: &[i64]) -> Option<(u64, &[i64], &[i64])>
    requires { All (λ z. unsigned_abs z < 2 ^ 63) rest.now }
    ensures none { IfNone result (add_of id (slice_split is_zero rest.now) ≡ None) }
    ensures some { IfSome result (λ parts. add_of id (slice_split is_zero rest.now)
        ≡ Some (Step.Add parts.0 (map literal_of parts.1.now) parts.2.now)) }
    ensures free { IfSome result (λ parts. All (λ z. is_zero z ≡ false) parts.1.now) }
    ensures within { IfSome result (λ parts. All (λ z. unsigned_abs z < 2 ^ 63) parts.1.now) }
{
    let (lits, hints) = two_parts(rest)?;
    if id < 1 {
        return None;
    }
    Some((id as u64, lits, hints))
}

/// The step `ID LITS 0 HINTS 0`, from what follows the id.
fn add_step(alloc: Global, id: i64, rest: &[i64]) -> Result<Option<Step>, Memory>
    requires { All (λ z. unsigned_abs z < 2 ^ 63) rest.now }
    ensures { IfOk result (λ step. step ≡ add_of id (slice_split is_zero rest.now)) }
{
    let Some((id, lits, numbers)) = add_parts(id, rest) else {
        return Ok(None);
    };
    Ok(Some(Step::Add {
        id,
        lits: literals(alloc, lits)?,
        hints: hints(alloc, numbers)?,
    }))
}

/// The step `NUM d IDS 0`, from what follows the letter.
fn drop_step(alloc: Global, num: i64, rest: &[i64]) -> Result<Option<Step>, Memory>
    ensures { IfOk result (λ step. step ≡ drop_of num (slice_split is_zero rest.now)) }
{
    let Some(numbers) = one_part(rest) else {
        return Ok(None);
    };
    if num < 0 {
        return Ok(None);
    }
    if !all_positive(numbers) {
        return Ok(None);
    }
    Ok(Some(Step::Drop {
        ids: ids(alloc, numbers)?,
    }))
}

/// The step `ID b W 0`, from what follows the letter.
fn bound_step(id: i64, rest: &[i64]) -> Option<Step>
    ensures { result ≡ bound_of id rest.now }
{
    match rest {
        [price, 0] if id > 0 => {
            let price = u32::try_from(*price).ok()?;
            Some(Step::Bound {
                id: id as u64,
                price,
            })
        }
        _ => None,
    }
}

/// What the numbers of a line that adds a clause write, if it has that form: the id, the numbers of
/// the literals and the hints.
pub fn added(numbers: &[i64]) -> Option<(u64, &[i64], &[i64])>
    requires { All (λ z. unsigned_abs z < 2 ^ 63) numbers.now }
    ensures none { IfNone result (formed Sign.Adds numbers.now ≡ None) }
    ensures some { IfSome result (λ parts. formed Sign.Adds numbers.now
        ≡ Some (Step.Add parts.0 (map literal_of parts.1.now) parts.2.now)) }
    ensures free { IfSome result (λ parts. All (λ z. is_zero z ≡ false) parts.1.now) }
    ensures within { IfSome result (λ parts. All (λ z. unsigned_abs z < 2 ^ 63) parts.1.now) }
{
    match numbers {
        [id, rest @ ..] => add_parts(*id, rest),
        [] => None,
    }
}

/// The step that the numbers of a line of this sign write, if it has one of the three forms.
pub fn interpret(alloc: Global, sign: Sign, numbers: &[i64]) -> Result<Option<Step>, Memory>
    requires { All (λ z. unsigned_abs z < 2 ^ 63) numbers.now }
    ensures { IfOk result (λ step. step ≡ formed sign numbers.now) }
{
    let [first, rest @ ..] = numbers else {
        return Ok(None);
    };
    match sign {
        Sign::Adds => add_step(alloc, *first, rest),
        Sign::Drops => drop_step(alloc, *first, rest),
        Sign::Bounds => Ok(bound_step(*first, rest)),
    }
}
