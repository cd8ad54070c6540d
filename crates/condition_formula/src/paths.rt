//! Clauses of reach: families of arcs that share no link, over routed arcs that are clear.
ghost use Rattle.condition_formula.specs.Clauses.{affirmed, denied};
ghost use Rattle.condition_formula.specs.Conditions.{lists_of, ends_of};
ghost use Rattle.condition_formula.specs.Formulas.{cell};
ghost use Rattle.condition_formula.specs.Lists.{upto};
ghost use Rattle.condition_formula.specs.Reaching.{over_link, exclusions, ends_parts, clear_parts};
ghost use Rattle.condition_formula.specs.Reaching.{family_parts, paths_parts, reached_parts};
ghost use Rattle.condition_formula.specs.Writing.{Adds, AreSmall, IsIndex, row_at, picked};
ghost use Rattle.condition_formula.specs.declared.pick.Pick.TheVariants.{Over};
ghost use Rattle.std.specs.Prelude.{◌≡◌, ◌==◌, ◌<◌, [], ◌∷◌, ◌++◌, if◌then◌else◌, length, map};
ghost use Rattle.std.specs.Prelude.{flat_map, OnOk, IfOk};

use crate::condition::Condition;
use crate::family::Family;
use crate::index::{index, row_variables};
use crate::network::{ConditionArc, Question};
use crate::row::Index;
use crate::sides::{ends_of, lists_of};
use crate::table::Table;
use crate::variables::exclusions;
use crate::writer::Writer;
use arc_base::Memory;
use arc_base::groups::append;
use std::alloc::Global;

/// The link-disjoint paths that a reach question asks for.
#[derive(Clone, Copy)]
pub(crate) struct Paths<'a> {
    pub q: &'a Question,
    pub nodes: u32,
    pub links: u32,
    /// The number of paths.
    pub many: u32,
    /// The variables that say which arcs each path uses: a row for each path, a column for each
    /// arc.
    pub used: Table,
}

/// The condition holds.
fn holds(out: &mut Writer, condition: Condition) -> Result<(), Memory>
    ensures { OnOk result (Adds out.old out.new ((affirmed condition ∷ []) ∷ [])) }
{
    out.put(&[condition.affirmed()])
}

/// The packets of the class enter and leave.
fn ends(out: &mut Writer, q: &Question, class: u32) -> Result<(), Memory>
    ensures { OnOk result (Adds out.old out.new (ends_parts q.now class)) }
{
    let ends = ends_of(q, class);
    holds(out, ends.enter)?;
    holds(out, ends.leave)?;
    Ok(())
}

/// Asks that the packets of each class enter and leave.
fn all_ends(out: &mut Writer, q: &Question) -> Result<(), Memory>
    ensures { OnOk result
        (Adds out.old out.new (flat_map (ends_parts q.now) (upto (length q.now.classes)))) }
{
    for class in 0..q.classes.len() {
        ends(out, q, class)?;
    }
    Ok(())
}

/// If all of the conditions hold, so does one more.
fn all_require(out: &mut Writer, conditions: &[Condition], one: Condition) -> Result<(), Memory>
    ensures { OnOk result
        (Adds out.old out.new ((map denied conditions.now ++ affirmed one ∷ []) ∷ [])) }
{
    out.put_unless(&[], conditions, &[one.affirmed()])
}

/// If the arc is routed, it is clear to the class.
fn clear(out: &mut Writer, class: u32, arc: &ConditionArc) -> Result<(), Memory>
    ensures { OnOk result (Adds out.old out.new (clear_parts class arc.now)) }
{
    let lists = lists_of(arc, class);
    all_require(out, arc.routing.slice(), lists.outbound)?;
    all_require(out, arc.routing.slice(), lists.inbound)?;
    Ok(())
}

/// Each routed arc is clear to the class.
fn arcs_clear(out: &mut Writer, q: &Question, class: u32) -> Result<(), Memory>
    ensures { OnOk result (Adds out.old out.new (flat_map (clear_parts class) q.now.arcs)) }
{
    for arc in q.arcs.slice() {
        clear(out, class, arc)?;
    }
    Ok(())
}

/// Each routed arc is clear to each class.
fn all_clear(out: &mut Writer, q: &Question) -> Result<(), Memory>
    ensures { OnOk result
        (Adds out.old out.new (flat_map (λ class. flat_map (clear_parts class) q.now.arcs)
        (upto (length q.now.classes)))) }
{
    for class in 0..q.classes.len() {
        arcs_clear(out, q, class)?;
    }
    Ok(())
}

impl Paths<'_> {
    /// The packets enter and leave, and there are paths if source and target differ.
    pub(crate) fn reached(&self, out: &mut Writer) -> Result<(), Memory>
        ensures { OnOk result (Adds out.old out.new (reached_parts self.now.q.now self.now.nodes
            self.now.links self.now.many (cell self.now.used.first self.now.used.columns))) }
    {
        all_ends(out, self.q)?;
        self.paths_between(out)?;
        Ok(())
    }

    /// The clauses of the paths; none if source and target are one node.
    fn paths_between(&self, out: &mut Writer) -> Result<(), Memory>
        ensures { OnOk result (Adds out.old out.new
            (if self.now.q.now.source == self.now.q.now.target then []
            else paths_parts self.now.q.now self.now.nodes self.now.links self.now.many
            (cell self.now.used.first self.now.used.columns))) }
    {
        if self.q.source == self.q.target {
            return Ok(());
        }
        self.paths(out)
    }

    /// The paths lead over routed arcs, all of which are clear, and share no link.
    fn paths(&self, out: &mut Writer) -> Result<(), Memory>
        ensures { OnOk result (Adds out.old out.new (paths_parts self.now.q.now self.now.nodes
            self.now.links self.now.many (cell self.now.used.first self.now.used.columns))) }
    {
        all_clear(out, self.q)?;
        let index = index(out.alloc, self.q, self.nodes, self.links)?;
        self.families(out, &index)?;
        self.own_links(out, &index)?;
        Ok(())
    }

    /// Each family forms a path.
    fn families(&self, out: &mut Writer, index: &Index) -> Result<(), Memory>
        requires { IsIndex self.now.q.now self.now.nodes self.now.links index.now }
        ensures { OnOk result (Adds out.old out.new (flat_map (λ f.
            family_parts self.now.q.now self.now.nodes
            (cell self.now.used.first self.now.used.columns f)) (upto self.now.many))) }
    {
        for number in 0..self.many {
            let family = Family {
                q: self.q,
                index,
                nodes: self.nodes,
                used: self.used,
                number,
            };
            family.path(out)?;
        }
        Ok(())
    }

    /// At most one family uses each link, in one direction.
    fn own_links(&self, out: &mut Writer, index: &Index) -> Result<(), Memory>
        requires { IsIndex self.now.q.now self.now.nodes self.now.links index.now }
        ensures { OnOk result (Adds out.old out.new (flat_map (λ link.
            exclusions (λ item. cell self.now.used.first self.now.used.columns item.0 item.1)
            (over_link self.now.q.now self.now.many link)) (upto self.now.links))) }
    {
        for link in 0..self.links {
            self.own_link(out, index, link)?;
        }
        Ok(())
    }

    /// At most one family uses the link, in one direction.
    fn own_link(&self, out: &mut Writer, index: &Index, link: u32) -> Result<(), Memory>
        requires { row_at index.now.over link ≡ picked self.now.q.now Over link }
        ensures { OnOk result (Adds out.old out.new
            (exclusions (λ item. cell self.now.used.first self.now.used.columns item.0 item.1)
            (over_link self.now.q.now self.now.many link))) }
    {
        let variables = self.over_link(out.alloc, index, link)?;
        exclusions(out, &variables)?;
        Ok(())
    }

    /// The variables of the arcs over the link, of each family in order.
    fn over_link(&self, alloc: Global, index: &Index, link: u32) -> Result<Vec<u64>, Memory>
        requires { row_at index.now.over link ≡ picked self.now.q.now Over link }
        ensures variables { IfOk result (λ vs. vs.items
            ≡ map (λ item. cell self.now.used.first self.now.used.columns item.0 item.1)
            (over_link self.now.q.now self.now.many link)) }
        ensures small { IfOk result (λ vs. AreSmall vs.items) }
    {
        let mut variables = Vec::new(alloc);
        for number in 0..self.many {
            let row = row_variables(alloc, &index.over, link, self.used, number)?;
            append(&mut variables, row.slice())?;
        }
        Ok(variables)
    }
}
