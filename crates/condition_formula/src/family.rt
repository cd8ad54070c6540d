//! Clauses of reach: the arcs of one family form a path.
ghost use Rattle.condition_formula.specs.Clauses.{yes, no, affirmed};
ghost use Rattle.condition_formula.specs.Lists.{upto};
ghost use Rattle.condition_formula.specs.Reaching.{arc_at, routed_parts, node_parts, once_parts};
ghost use Rattle.condition_formula.specs.Reaching.{inner_nodes, family_parts, out_of, into};
ghost use Rattle.condition_formula.specs.Writing.{Adds, AreSmall, row_at, picked};
ghost use Rattle.condition_formula.specs.Writing.{HasIndex, used_by};
ghost use Rattle.std.specs.Prelude.{◌≡◌, ◌==◌, ◌<◌, ◌&&◌, not, [], ◌∷◌, if◌then◌else◌};
ghost use Rattle.std.specs.Prelude.{map, flat_map, OnOk, IfOk, ◌^◌};

use crate::condition::Condition;
use crate::index::{picked, row_variables, variables_of};
use crate::network::Question;
use crate::part::no;
use crate::pick::Pick;
use crate::row::Index;
use crate::table::Table;
use crate::variables::{each_implies, exclusions, none_of, some_of};
use crate::writer::Writer;
use arc_base::{List, Memory};
use std::alloc::Global;

/// One of the families of arcs of a reach question, each of which is to form a path.
#[derive(Clone, Copy)]
pub(crate) struct Family<'a> {
    pub q: &'a Question,
    /// The question's arcs, by node and by link.
    pub index: &'a Index,
    pub nodes: u32,
    /// The variables of all families: a row for each, a column for each arc.
    pub used: Table,
    pub number: u32,
}

/// If the variable is true, the condition holds.
fn requires_condition(out: &mut Writer, variable: u64, condition: Condition) -> Result<(), Memory>
    requires { variable < 2 ^ 62 }
    ensures { OnOk result (Adds out.old out.new ((no variable ∷ affirmed condition ∷ []) ∷ [])) }
{
    out.put(&[no(variable), condition.affirmed()])
}

/// If the variable is true, each of the conditions holds.
fn requires_all(out: &mut Writer, variable: u64, conditions: &[Condition]) -> Result<(), Memory>
    requires { variable < 2 ^ 62 }
    ensures { OnOk result (Adds out.old out.new
        (map (λ condition. no variable ∷ affirmed condition ∷ []) conditions.now)) }
{
    for condition in conditions {
        requires_condition(out, variable, *condition)?;
    }
    Ok(())
}

/// If the variable is true, the arc at the place is routed.
fn routed_at(out: &mut Writer, q: &Question, variable: u64, place: u32) -> Result<(), Memory>
    requires small { variable < 2 ^ 62 }
    ensures { OnOk result (Adds out.old out.new
        (map (λ condition. no variable ∷ affirmed condition ∷ []) (arc_at q.now place).routing)) }
{
    match q.arcs.get(place) {
        Some(arc) => requires_all(out, variable, arc.routing.slice()),
        None => Ok(()),
    }
}

impl Family<'_> {
    /// The used arcs are routed, and form a path from the source to the target.
    pub(crate) fn path(&self, out: &mut Writer) -> Result<(), Memory>
        requires { HasIndex self.now }
        ensures { OnOk result (Adds out.old out.new
            (family_parts self.now.q.now self.now.nodes (used_by self.now))) }
    {
        self.routed(out)?;
        self.ends(out)?;
        self.none_into_source(out)?;
        self.none_out_of_target(out)?;
        self.all_conserve(out)?;
        self.all_at_most_one(out)?;
        Ok(())
    }

    /// Each used arc is routed.
    fn routed(&self, out: &mut Writer) -> Result<(), Memory>
        ensures { OnOk result
            (Adds out.old out.new (routed_parts self.now.q.now (used_by self.now))) }
    {
        for place in 0..self.q.arcs.len() {
            routed_at(out, self.q, self.used.at(self.number, place), place)?;
        }
        Ok(())
    }

    /// Some used arc leaves the source, and some enters the target.
    fn ends(&self, out: &mut Writer) -> Result<(), Memory>
        ensures { OnOk result (Adds out.old out.new
            (map (λ place. yes (used_by self.now place))
            (out_of self.now.q.now self.now.q.now.source) ∷
            map (λ place. yes (used_by self.now place))
            (into self.now.q.now self.now.q.now.target) ∷ [])) }
    {
        let outs = self.searched(out.alloc, Pick::OutOf, self.q.source)?;
        some_of(out, &[], outs.slice())?;
        let ins = self.searched(out.alloc, Pick::Into, self.q.target)?;
        some_of(out, &[], ins.slice())?;
        Ok(())
    }

    /// No used arc enters the source.
    fn none_into_source(&self, out: &mut Writer) -> Result<(), Memory>
        ensures { OnOk result (Adds out.old out.new
            (map (λ place. no (used_by self.now place) ∷ [])
            (into self.now.q.now self.now.q.now.source))) }
    {
        let ins = self.searched(out.alloc, Pick::Into, self.q.source)?;
        none_of(out, ins.slice())?;
        Ok(())
    }

    /// No used arc leaves the target.
    fn none_out_of_target(&self, out: &mut Writer) -> Result<(), Memory>
        ensures { OnOk result (Adds out.old out.new
            (map (λ place. no (used_by self.now place) ∷ [])
            (out_of self.now.q.now self.now.q.now.target))) }
    {
        let outs = self.searched(out.alloc, Pick::OutOf, self.q.target)?;
        none_of(out, outs.slice())?;
        Ok(())
    }

    /// Flow conservation at each inner node.
    fn all_conserve(&self, out: &mut Writer) -> Result<(), Memory>
        requires { HasIndex self.now }
        ensures { OnOk result (Adds out.old out.new
            (flat_map (node_parts self.now.q.now (used_by self.now))
            (inner_nodes self.now.q.now self.now.nodes))) }
    {
        for node in 0..self.nodes {
            self.conserves_between(out, node)?;
        }
        Ok(())
    }

    /// Flow conservation at the node; nothing at source and target.
    fn conserves_between(&self, out: &mut Writer, node: u32) -> Result<(), Memory>
        requires out_of { row_at self.now.index.now.out_of node ≡ out_of self.now.q.now node }
        requires into { row_at self.now.index.now.into node ≡ into self.now.q.now node }
        ensures { OnOk result (Adds out.old out.new
            (if not (node == self.now.q.now.source) && not (node == self.now.q.now.target)
            then node_parts self.now.q.now (used_by self.now) node else [])) }
    {
        if node == self.q.source || node == self.q.target {
            return Ok(());
        }
        self.conserves(out, node)
    }

    /// Flow conservation at an inner node: a used arc enters it exactly if a used arc leaves it.
    fn conserves(&self, out: &mut Writer, node: u32) -> Result<(), Memory>
        requires out_of { row_at self.now.index.now.out_of node ≡ out_of self.now.q.now node }
        requires into { row_at self.now.index.now.into node ≡ into self.now.q.now node }
        ensures { OnOk result
            (Adds out.old out.new (node_parts self.now.q.now (used_by self.now) node)) }
    {
        let ins = row_variables(out.alloc, &self.index.into, node, self.used, self.number)?;
        let outs = row_variables(out.alloc, &self.index.out_of, node, self.used, self.number)?;
        each_implies(out, ins.slice(), outs.slice())?;
        each_implies(out, outs.slice(), ins.slice())?;
        Ok(())
    }

    /// At each node at most one used arc leaves, and at most one enters.
    fn all_at_most_one(&self, out: &mut Writer) -> Result<(), Memory>
        requires { HasIndex self.now }
        ensures { OnOk result (Adds out.old out.new
            (flat_map (once_parts self.now.q.now (used_by self.now)) (upto self.now.nodes))) }
    {
        for node in 0..self.nodes {
            self.at_most_one(out, node)?;
        }
        Ok(())
    }

    /// At most one used arc leaves the node, and at most one enters it.
    fn at_most_one(&self, out: &mut Writer, node: u32) -> Result<(), Memory>
        requires out_of { row_at self.now.index.now.out_of node ≡ out_of self.now.q.now node }
        requires into { row_at self.now.index.now.into node ≡ into self.now.q.now node }
        ensures { OnOk result
            (Adds out.old out.new (once_parts self.now.q.now (used_by self.now) node)) }
    {
        let outs = row_variables(out.alloc, &self.index.out_of, node, self.used, self.number)?;
        exclusions(out, outs.slice())?;
        let ins = row_variables(out.alloc, &self.index.into, node, self.used, self.number)?;
        exclusions(out, ins.slice())?;
        Ok(())
    }

    /// The variables of the arcs that are picked at the node or link of this number.
    fn searched(&self, alloc: Global, pick: Pick, number: u32) -> Result<List<u64>, Memory>
        ensures variables { IfOk result (λ vs.
            vs ≡ map (used_by self.now) (picked self.now.q.now pick number)) }
        ensures small { IfOk result AreSmall }
    {
        let places = picked(alloc, self.q, pick, number)?;
        variables_of(alloc, places.slice(), self.used, self.number)
    }
}
