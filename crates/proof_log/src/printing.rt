//! The text of a proof log.
ghost use Rattle.proof_log.specs.Texts.{before_spaces, literal_text, log_text, step_text};
ghost use Rattle.proof_log.specs.Texts.{last_added};
ghost use Rattle.std.specs.Fmt.{signed_decimal};
ghost use Rattle.std.specs.Prelude.{◌≡◌, ◌<◌, ◌++◌, ◌∷◌, [], IfOk, OnOk, string_bytes, map};
ghost use Rattle.std.specs.Prelude.{decimal, codes};

use crate::steps::{Log, Step};
use arc_base::Memory;
use cnf_types::Lit;
use std::alloc::Global;
use std::fmt::Write;

/// Writes a literal and a space.
fn push_literal(text: &mut String, lit: Lit) -> Result<(), Memory>
    ensures { OnOk result
        (string_bytes text.new ≡ string_bytes text.old ++ (literal_text lit ++ 32 ∷ [])) }
{
    let written = if lit.positive() {
        write!(text, "{} ", lit.var())
    } else {
        write!(text, "-{} ", lit.var())
    };
    written.map_err(|_| Memory)
}

/// Writes literals, each with a space behind it.
fn push_literals(text: &mut String, lits: &[Lit]) -> Result<(), Memory>
    ensures { OnOk result (string_bytes text.new ≡ string_bytes text.old ++
        before_spaces (map literal_text lits.now)) }
{
    for lit in lits {
        push_literal(text, *lit)?;
    }
    Ok(())
}

/// Writes hints, each with a space behind it.
fn push_hints(text: &mut String, hints: &[i64]) -> Result<(), Memory>
    ensures { OnOk result (string_bytes text.new ≡ string_bytes text.old ++
        before_spaces (map signed_decimal hints.now)) }
{
    for hint in hints {
        write!(text, "{hint} ").map_err(|_| Memory)?;
    }
    Ok(())
}

/// Writes ids, each with a space behind it.
fn push_ids(text: &mut String, ids: &[u64]) -> Result<(), Memory>
    ensures { OnOk result
        (string_bytes text.new ≡ string_bytes text.old ++ before_spaces (map decimal ids.now)) }
{
    for id in ids {
        write!(text, "{id} ").map_err(|_| Memory)?;
    }
    Ok(())
}

/// Writes the line of a step that adds a clause.
fn push_add(text: &mut String, id: u64, lits: &[Lit], hints: &[i64]) -> Result<(), Memory>
    ensures { OnOk result (string_bytes text.new ≡ string_bytes text.old
        ++ (decimal id ++ codes " " ++ before_spaces (map literal_text lits.now) ++ codes "0 "
        ++ before_spaces (map signed_decimal hints.now) ++ codes "0\n")) }
{
    write!(text, "{id} ").map_err(|_| Memory)?;
    push_literals(text, lits)?;
    text.push_str("0 ")?;
    push_hints(text, hints)?;
    text.push_str("0\n")?;
    Ok(())
}

/// Writes the line of a step that drops clauses.
fn push_drop(text: &mut String, last: u64, ids: &[u64]) -> Result<(), Memory>
    ensures { OnOk result (string_bytes text.new ≡ string_bytes text.old
        ++ (decimal last ++ codes " d " ++ before_spaces (map decimal ids.now) ++ codes "0\n")) }
{
    write!(text, "{last} d ").map_err(|_| Memory)?;
    push_ids(text, ids)?;
    text.push_str("0\n")?;
    Ok(())
}

/// Writes the line of a step, and gives the id of the last clause added then. `last` is that before
/// the step.
fn push_step(text: &mut String, last: u64, step: &Step) -> Result<u64, Memory>
    ensures text { OnOk result
        (string_bytes text.new ≡ string_bytes text.old ++ (step_text last step.now ++ 10 ∷ [])) }
    ensures last { IfOk result (λ id. id ≡ last_added last step.now) }
{
    match step {
        Step::Add { id, lits, hints } => {
            push_add(text, *id, lits.slice(), hints.slice())?;
            Ok(*id)
        }
        Step::Drop { ids } => {
            push_drop(text, last, ids.slice())?;
            Ok(last)
        }
        Step::Bound { id, price } => {
            write!(text, "{id} b {price} 0\n").map_err(|_| Memory)?;
            Ok(last)
        }
    }
}

/// The text of a log: a line for each step, with single spaces and no comments. The number before
/// the `d` of a drop is the id of the last clause added before it, or 0.
pub fn text(alloc: Global, log: &Log) -> Result<Vec<u8>, Memory>
    ensures { IfOk result (λ text. text.items ≡ log_text log.now) }
{
    let mut text = String::new(alloc);
    let mut last = 0;
    for step in log.steps.slice() {
        last = push_step(&mut text, last, step)?;
    }
    Ok(text.into_bytes())
}
