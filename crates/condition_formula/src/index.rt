//! The arcs of a question, found by node or by link.
ghost use Rattle.condition_formula.specs.Formulas.{cell};
ghost use Rattle.condition_formula.specs.Reaching.{arc_at};
ghost use Rattle.condition_formula.specs.Writing.{AreSmall, number_of, picks, picked, rows_of};
ghost use Rattle.condition_formula.specs.Writing.{row_at, empty_rows, with_place, IsIndex};
ghost use Rattle.std.specs.Prelude.{◌≡◌, ◌<◌, [], ◌∷◌, ◌++◌, if◌then◌else◌, length, map, OnOk};
ghost use Rattle.std.specs.Prelude.{IfOk};

use crate::network::{ConditionArc, Question};
use crate::pick::Pick;
use crate::pushing::push;
use crate::row::{Index, Row};
use crate::table::Table;
use arc_base::{List, Memory};
use std::alloc::Global;

/// The number of the node or link that an arc is picked by.
fn number_of(pick: Pick, arc: &ConditionArc) -> u32
    ensures { result ≡ number_of pick arc.now }
{
    match pick {
        Pick::OutOf => arc.tail,
        Pick::Into => arc.head,
        Pick::Over => arc.link.0,
    }
}

/// The number of the node or link that the arc at a place is picked by.
fn number_at(pick: Pick, q: &Question, place: u32) -> u32
    requires { place < length q.now.arcs }
    ensures { result ≡ number_of pick (arc_at q.now place) }
{
    match q.arcs.get(place) {
        Some(arc) => number_of(pick, arc),
        None => 0,
    }
}

/// Whether the arc at a place is picked for the number.
fn picks_at(pick: Pick, number: u32, q: &Question, place: u32) -> bool
    requires { place < length q.now.arcs }
    ensures { result ≡ picks pick number (arc_at q.now place) }
{
    number_at(pick, q, place) == number
}

/// Appends a place if it is wanted.
fn push_if(places: &mut List<u32>, wanted: bool, place: u32) -> Result<(), Memory>
    ensures { OnOk result (places.new ≡ places.old ++ (if wanted then place ∷ [] else [])) }
{
    if wanted {
        push(places, place)?;
    }
    Ok(())
}

/// The places of the arcs that are picked for the number, rising.
pub(crate) fn picked(
    alloc: Global,
    q: &Question,
    pick: Pick,
    number: u32,
) -> Result<List<u32>, Memory>
    ensures { IfOk result (λ places. places ≡ picked q.now pick number) }
{
    let mut places = List::make(alloc);
    for place in 0..q.arcs.len() {
        push_if(&mut places, picks_at(pick, number, q, place), place)?;
    }
    Ok(places)
}

/// Empty rows, `count` of them.
fn empty_rows(alloc: Global, count: u32) -> Result<Vec<Row>, Memory>
    ensures { IfOk result (λ rows. rows.items ≡ empty_rows count) }
{
    let mut rows = Vec::new(alloc);
    for _ in 0..count {
        rows.push(Row {
            places: List::make(alloc),
        })?;
    }
    Ok(rows)
}

/// Appends a place to the row of a number, if there is such a row.
fn add_place(rows: &mut Vec<Row>, number: u32, place: u32) -> Result<(), Memory>
    ensures { OnOk result (rows.new.items ≡ with_place rows.old.items number place) }
{
    let at = number as usize;
    if at < rows.len() {
        let row = &mut rows[at];
        push(&mut row.places, place)?;
    }
    Ok(())
}

/// For each number below the count, the places of the arcs that are picked for it, in one pass over
/// the arcs.
fn rows(alloc: Global, q: &Question, pick: Pick, count: u32) -> Result<List<Row>, Memory>
    ensures { IfOk result (λ rows. rows ≡ rows_of q.now pick count) }
{
    let mut rows = empty_rows(alloc, count)?;
    for place in 0..q.arcs.len() {
        add_place(&mut rows, number_at(pick, q, place), place)?;
    }
    let all = List::of(rows)?;
    Ok(all)
}

/// The index of a question's arcs: those out of each node, into each node and over each link.
pub(crate) fn index(alloc: Global, q: &Question, nodes: u32, links: u32) -> Result<Index, Memory>
    ensures { IfOk result (IsIndex q.now nodes links) }
{
    let out_of = rows(alloc, q, Pick::OutOf, nodes)?;
    let into = rows(alloc, q, Pick::Into, nodes)?;
    let over = rows(alloc, q, Pick::Over, links)?;
    Ok(Index { out_of, into, over })
}

/// The variables of the arcs at these places, in a family's row.
pub(crate) fn variables_of(
    alloc: Global,
    places: &[u32],
    used: Table,
    family: u32,
) -> Result<List<u64>, Memory>
    ensures variables { IfOk result (λ vs.
        vs ≡ map (cell used.first used.columns family) places.now) }
    ensures small { IfOk result AreSmall }
{
    let mut variables = List::make(alloc);
    for place in places {
        push(&mut variables, used.at(family, *place))?;
    }
    Ok(variables)
}

/// The variables of the arcs of one node or link, in a family's row.
pub(crate) fn row_variables(
    alloc: Global,
    rows: &List<Row>,
    number: u32,
    used: Table,
    family: u32,
) -> Result<List<u64>, Memory>
    ensures variables { IfOk result (λ vs.
        vs ≡ map (cell used.first used.columns family) (row_at rows.now number)) }
    ensures small { IfOk result AreSmall }
{
    match rows.get(number) {
        Some(row) => variables_of(alloc, row.places.slice(), used, family),
        None => Ok(List::make(alloc)),
    }
}
