//! The variables and clauses of all questions.
ghost use Rattle.condition_formula.specs.Formulas.{demand_parts, question_size, questions_parts};
ghost use Rattle.condition_formula.specs.Formulas.{variable_count};
ghost use Rattle.condition_formula.specs.Limits.{IsSmallNet};
ghost use Rattle.condition_formula.specs.Writing.{Adds};
ghost use Rattle.std.specs.Prelude.{◌≡◌, ◌<◌, ◌≤◌, ◌+◌, ◌*◌, ◌^◌, length, sum_by, All, OnOk, IfOk};

use crate::network::{ConditionNet, Demand, Question};
use crate::paths::Paths;
use crate::sides::kept_off;
use crate::table::Table;
use crate::writer::Writer;
use arc_base::Memory;
use arc_base::limits::{ARC_LIMIT, NODE_LIMIT, PRICE_LIMIT, QUESTION_LIMIT};

/// The number of variables of a question.
fn question_size(q: &Question, nodes: u32) -> u64
    requires nodes { nodes ≤ NODE_LIMIT }
    requires arcs { length q.now.arcs ≤ ARC_LIMIT }
    ensures size { result ≡ question_size nodes q.now }
    ensures small { result < 2 ^ 48 }
{
    match q.demand {
        Demand::Blocked | Demand::Through => u64::from(q.classes.len()) * u64::from(nodes),
        Demand::Reach(many) => {
            if q.source == q.target {
                0
            } else {
                u64::from(many) * u64::from(q.arcs.len())
            }
        }
    }
}

/// The number of variables of all questions.
fn questions_size(questions: &[Question], nodes: u32) -> u64
    requires nodes { nodes ≤ NODE_LIMIT }
    requires arcs { All (λ q. length q.arcs ≤ ARC_LIMIT) questions.now }
    requires few { length questions.now ≤ QUESTION_LIMIT }
    ensures size { result ≡ sum_by (question_size nodes) questions.now }
    ensures small { result ≤ 2 ^ 60 }
{
    let mut total = 0;
    for q in questions {
        total += question_size(q, nodes);
    }
    total
}

/// The number of variables of the formula.
pub(crate) fn variable_count(net: &ConditionNet, bound: u32) -> u64
    requires net { IsSmallNet net.now }
    requires bound { bound ≤ PRICE_LIMIT }
    ensures { result ≡ variable_count net.now bound }
{
    let edits = u64::from(net.weights.len());
    edits + questions_size(net.questions.slice(), net.nodes) + edits * (u64::from(bound) + 1)
}

/// The clauses of a question, whose variables start at `first`.
fn question(
    out: &mut Writer,
    q: &Question,
    nodes: u32,
    links: u32,
    first: u64,
) -> Result<(), Memory>
    requires nodes { nodes ≤ NODE_LIMIT }
    requires arcs { length q.now.arcs ≤ ARC_LIMIT }
    requires first { first < 2 ^ 60 }
    ensures { OnOk result
        (Adds out.old out.new (demand_parts q.now nodes links first q.now.demand)) }
{
    match q.demand {
        Demand::Blocked | Demand::Through => {
            let columns = nodes;
            kept_off(out, q, Table { first, columns })
        }
        Demand::Reach(many) => {
            let columns = q.arcs.len();
            let paths = Paths {
                q,
                nodes,
                links,
                many,
                used: Table { first, columns },
            };
            paths.reached(out)
        }
    }
}

/// The clauses of all questions, whose variables start at `first`. Returns the variable after
/// theirs.
pub(crate) fn questions(
    out: &mut Writer,
    questions: &[Question],
    nodes: u32,
    links: u32,
    first: u64,
) -> Result<u64, Memory>
    requires nodes { nodes ≤ NODE_LIMIT }
    requires arcs { All (λ q. length q.arcs ≤ ARC_LIMIT) questions.now }
    requires first { first + sum_by (question_size nodes) questions.now < 2 ^ 60 }
    ensures clauses { OnOk result
        (Adds out.old out.new (questions_parts nodes links first questions.now)) }
    ensures next { IfOk result (λ next. next ≡ first + sum_by (question_size nodes) questions.now) }
{
    let mut next = first;
    let mut rest = questions;
    while let Some((q, others)) = rest.split_first() {
        question(out, q, nodes, links, next)?;
        next += question_size(q, nodes);
        rest = others;
    }
    Ok(next)
}
