//! Clauses of blocked and through: closed sides.
ghost use Rattle.condition_formula.specs.Clauses.{yes, no, denied};
ghost use Rattle.condition_formula.specs.Conditions.{lists_of, ends_of, is_counted, counted_arcs};
ghost use Rattle.condition_formula.specs.Formulas.{cell};
ghost use Rattle.condition_formula.specs.Sides.{step_parts, side_parts, kept_off_parts};
ghost use Rattle.condition_formula.specs.Writing.{Adds};
ghost use Rattle.std.specs.Prelude.{◌≡◌, [], ◌∷◌, if◌then◌else◌, map, OnOk};

use crate::condition::{ArcLists, ClassEnds, Condition};
use crate::network::{ConditionArc, Demand, Question};
use crate::part::{no, yes};
use crate::table::Table;
use crate::writer::Writer;
use arc_base::Memory;

/// The conditions of an arc's packet lists for a class, which always hold if the arc has none.
pub(crate) fn lists_of(arc: &ConditionArc, class: u32) -> ArcLists
    ensures { result ≡ lists_of arc.now class }
{
    match arc.lists.get(class) {
        Some(lists) => *lists,
        None => ArcLists {
            outbound: Condition::Always,
            inbound: Condition::Always,
        },
    }
}

/// The conditions under which the packets of a class enter and leave, which always hold if there is
/// no such class.
pub(crate) fn ends_of(q: &Question, class: u32) -> ClassEnds
    ensures { result ≡ ends_of q.now class }
{
    match q.classes.get(class) {
        Some(ends) => *ends,
        None => ClassEnds {
            enter: Condition::Always,
            leave: Condition::Always,
        },
    }
}

/// Whether an arc counts for a demand: through leaves out the arcs of waypoints.
fn is_counted(demand: Demand, arc: &ConditionArc) -> bool
    ensures { result ≡ is_counted demand arc.now }
{
    match demand {
        Demand::Through => !arc.waypoint,
        Demand::Blocked | Demand::Reach(_) => true,
    }
}

/// Packets that come to the tail of an open arc come to its head.
fn step(out: &mut Writer, reached: Table, class: u32, arc: &ConditionArc) -> Result<(), Memory>
    ensures { OnOk result (Adds out.old out.new
        (step_parts (cell reached.first reached.columns class) class arc.now ∷ [])) }
{
    let lists = lists_of(arc, class);
    let before = [no(reached.at(class, arc.tail))];
    let head = yes(reached.at(class, arc.head));
    let after = [lists.outbound.denied(), lists.inbound.denied(), head];
    out.put_unless(&before, arc.routing.slice(), &after)
}

/// The clauses of a step over an arc that counts; none for another arc.
fn counted_step(
    out: &mut Writer,
    demand: Demand,
    reached: Table,
    class: u32,
    arc: &ConditionArc,
) -> Result<(), Memory>
    ensures { OnOk result (Adds out.old out.new (if is_counted demand arc.now
        then step_parts (cell reached.first reached.columns class) class arc.now ∷ [] else [])) }
{
    if !is_counted(demand, arc) {
        return Ok(());
    }
    step(out, reached, class, arc)
}

/// The clauses of a step over each arc that counts.
fn steps(out: &mut Writer, q: &Question, reached: Table, class: u32) -> Result<(), Memory>
    ensures { OnOk result (Adds out.old out.new
        (map (step_parts (cell reached.first reached.columns class) class) (counted_arcs q.now))) }
{
    for arc in q.arcs.slice() {
        counted_step(out, q.demand, reached, class, arc)?;
    }
    Ok(())
}

/// Packets of the class that enter are at the source.
fn enters(out: &mut Writer, q: &Question, reached: Table, class: u32) -> Result<(), Memory>
    ensures { OnOk result (Adds out.old out.new ((denied (ends_of q.now class).enter ∷
        yes (cell reached.first reached.columns class q.now.source) ∷ []) ∷ [])) }
{
    out.put(&[
        ends_of(q, class).enter.denied(),
        yes(reached.at(class, q.source)),
    ])
}

/// Packets of the class that are at the target do not leave.
fn leaves(out: &mut Writer, q: &Question, reached: Table, class: u32) -> Result<(), Memory>
    ensures { OnOk result
        (Adds out.old out.new ((no (cell reached.first reached.columns class q.now.target) ∷
        denied (ends_of q.now class).leave ∷ []) ∷ [])) }
{
    out.put(&[
        no(reached.at(class, q.target)),
        ends_of(q, class).leave.denied(),
    ])
}

/// The clauses of a class: its packets that enter are at the source, go on over open arcs, and do
/// not leave at the target.
fn side(out: &mut Writer, q: &Question, reached: Table, class: u32) -> Result<(), Memory>
    ensures { OnOk result
        (Adds out.old out.new (side_parts q.now (cell reached.first reached.columns class) class)) }
{
    enters(out, q, reached, class)?;
    steps(out, q, reached, class)?;
    leaves(out, q, reached, class)?;
    Ok(())
}

/// The clauses of blocked and through, for each class.
pub(crate) fn kept_off(out: &mut Writer, q: &Question, reached: Table) -> Result<(), Memory>
    ensures { OnOk result
        (Adds out.old out.new (kept_off_parts q.now (cell reached.first reached.columns))) }
{
    for class in 0..q.classes.len() {
        side(out, q, reached, class)?;
    }
    Ok(())
}
