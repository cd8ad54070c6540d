//! The literals of a clause.
ghost use Rattle.cnf_types.specs.Literals.{literal};
ghost use Rattle.condition_formula.specs.Clauses.{is_fixed_true, part_literal, with_new};
ghost use Rattle.condition_formula.specs.Clauses.{distinct_lits};
ghost use Rattle.condition_formula.specs.Writing.{IsSmall};
ghost use Rattle.std.specs.List.{list_any};
ghost use Rattle.std.specs.Prelude.{◌≡◌, ◌==◌, ◌<◌, ◌^◌, [], ◌∷◌, fold, filter_map, All};
ghost use Rattle.std.specs.Prelude.{OnOk, IfOk};

use crate::part::Part;
use arc_base::Memory;
use cnf_types::Lit;
use std::alloc::Global;

/// Whether some part makes the clause true whatever its variables are.
pub(crate) fn is_true(parts: &[Part]) -> bool
    ensures { result ≡ list_any is_fixed_true parts.now }
{
    parts.iter().any(|part| matches!(part, Part::Fixed(true)))
}

/// Whether the literal is among the others.
fn contains(lits: &[Lit], lit: Lit) -> bool
    ensures { result ≡ list_any (λ l. l.code == lit.code) lits.now }
{
    lits.iter().any(|l| l.code == lit.code)
}

/// Adds a literal, unless it is there.
fn add(lits: &mut Vec<Lit>, lit: Lit) -> Result<(), Memory>
    ensures { OnOk result (lits.new.items ≡ with_new lits.old.items lit) }
{
    if contains(lits, lit) {
        return Ok(());
    }
    lits.push(lit)?;
    Ok(())
}

/// The literal of a variable, or of its negation.
pub(crate) fn literal(variable: u64, positive: bool) -> Lit
    requires { variable < 2 ^ 62 }
    ensures { result ≡ literal variable positive }
{
    Lit {
        code: if positive {
            2 * variable
        } else {
            2 * variable + 1
        },
    }
}

/// Adds the literal of a part, if it has one that is not there yet.
fn add_part(lits: &mut Vec<Lit>, part: Part) -> Result<(), Memory>
    requires { IsSmall part }
    ensures { OnOk result (lits.new.items
        ≡ fold with_new lits.old.items (filter_map part_literal (part ∷ []))) }
{
    match part {
        Part::Fixed(_) => Ok(()),
        Part::Literal(variable, positive) => add(lits, literal(variable, positive)),
    }
}

/// The literals of the parts, each once.
pub(crate) fn literals(alloc: Global, parts: &[Part]) -> Result<Vec<Lit>, Memory>
    requires { All IsSmall parts.now }
    ensures { IfOk result (λ lits. lits.items ≡ distinct_lits (filter_map part_literal parts.now)) }
{
    let mut lits = Vec::new(alloc);
    for part in parts {
        add_part(&mut lits, *part)?;
    }
    Ok(lits)
}
