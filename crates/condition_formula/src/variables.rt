//! Clauses over lists of variables.
ghost use Rattle.condition_formula.specs.Clauses.{yes, no};
ghost use Rattle.condition_formula.specs.Reaching.{exclusions};
ghost use Rattle.condition_formula.specs.Writing.{Adds, AreSmall, IsSmall, each_implies};
ghost use Rattle.condition_formula.specs.Writing.{excludes_each};
ghost use Rattle.std.specs.Prelude.{◌<◌, ◌^◌, ◌++◌, [], ◌∷◌, map, All, OnOk};

use crate::part::{Part, no, yes};
use crate::writer::Writer;
use arc_base::Memory;

/// At least one of the variables or of the other parts is true.
pub(crate) fn some_of(out: &mut Writer, others: &[Part], variables: &[u64]) -> Result<(), Memory>
    requires others { All IsSmall others.now }
    requires variables { AreSmall variables.now }
    ensures { OnOk result (Adds out.old out.new ((others.now ++ map yes variables.now) ∷ [])) }
{
    let mut parts = Vec::from_slice(out.alloc, others)?;
    for variable in variables {
        parts.push(yes(*variable))?;
    }
    out.put(&parts)
}

/// The variable is false.
fn not(out: &mut Writer, variable: u64) -> Result<(), Memory>
    requires { variable < 2 ^ 62 }
    ensures { OnOk result (Adds out.old out.new ((no variable ∷ []) ∷ [])) }
{
    out.put(&[no(variable)])
}

/// None of the variables is true.
pub(crate) fn none_of(out: &mut Writer, variables: &[u64]) -> Result<(), Memory>
    requires { AreSmall variables.now }
    ensures { OnOk result (Adds out.old out.new (map (λ v. no v ∷ []) variables.now)) }
{
    for variable in variables {
        not(out, *variable)?;
    }
    Ok(())
}

/// If the variable is true, so is one of the others.
fn one_implies(out: &mut Writer, one: u64, others: &[u64]) -> Result<(), Memory>
    requires one { one < 2 ^ 62 }
    requires others { AreSmall others.now }
    ensures { OnOk result (Adds out.old out.new ((no one ∷ map yes others.now) ∷ [])) }
{
    some_of(out, &[no(one)], others)
}

/// If one of the variables is true, so is one of the others.
pub(crate) fn each_implies(out: &mut Writer, ones: &[u64], others: &[u64]) -> Result<(), Memory>
    requires ones { AreSmall ones.now }
    requires others { AreSmall others.now }
    ensures { OnOk result (Adds out.old out.new (each_implies ones.now others.now)) }
{
    for one in ones {
        one_implies(out, *one, others)?;
    }
    Ok(())
}

/// Not both variables are true.
fn not_both(out: &mut Writer, one: u64, other: u64) -> Result<(), Memory>
    requires one { one < 2 ^ 62 }
    requires other { other < 2 ^ 62 }
    ensures { OnOk result (Adds out.old out.new ((no one ∷ no other ∷ []) ∷ [])) }
{
    out.put(&[no(one), no(other)])
}

/// The variable is not true together with any of the others.
fn excludes_each(out: &mut Writer, one: u64, others: &[u64]) -> Result<(), Memory>
    requires one { one < 2 ^ 62 }
    requires others { AreSmall others.now }
    ensures { OnOk result (Adds out.old out.new (excludes_each one others.now)) }
{
    for other in others {
        not_both(out, one, *other)?;
    }
    Ok(())
}

/// At most one of the variables is true: a clause for each pair.
pub(crate) fn exclusions(out: &mut Writer, variables: &[u64]) -> Result<(), Memory>
    requires { AreSmall variables.now }
    ensures { OnOk result (Adds out.old out.new (exclusions (λ v. v) variables.now)) }
{
    let mut rest = variables;
    while let Some((one, others)) = rest.split_first() {
        excludes_each(out, *one, others)?;
        rest = others;
    }
    Ok(())
}
