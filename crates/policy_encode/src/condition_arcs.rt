//! The arcs to a host network, each with its conditions.
ghost use Rattle.edit_list.specs.declared.edit_kinds.Edit.{Edit as AnyEdit};
ghost use Rattle.policy_encode.specs.Answers.{arc_lists};
ghost use Rattle.policy_encode.specs.Finding.{IsIndexOf};
ghost use Rattle.policy_encode.specs.Questions.{is_able, is_never, routing_of, arc_over};
ghost use Rattle.policy_encode.specs.Questions.{able_arcs, link_arcs, arcs_to};
ghost use Rattle.std.specs.List.{list_any};
ghost use Rattle.std.specs.Prelude.{◌≡◌, ◌<◌, ◌^◌, ◌++◌, ◌∷◌, [], not, filter, map, List, length};
ghost use Rattle.std.specs.Prelude.{IfOk, OnOk};

use crate::answers::{arc_lists, route_condition, session_condition};
use crate::edit_index::EditIndex;
use arc_base::{Face, Link, List, Memory, Prefix};
use condition_formula::{ArcLists, Condition, ConditionArc, push};
use net_model::{Class, FaceRow, LinkRow, Network};
use std::alloc::Global;

/// Where the arcs to a host network come from: the network with its edits, and the classes whose
/// packets are routed to it.
#[derive(Clone, Copy)]
pub(crate) struct ArcContext<'a> {
    pub net: &'a Network,
    pub index: &'a EditIndex,
    /// The host network.
    pub to: Prefix,
    pub classes: &'a List<Class>,
}

/// A link with the rows of its interfaces.
#[derive(Clone, Copy)]
pub(crate) struct LinkEnds<'a> {
    pub link: Link,
    pub row: &'a LinkRow,
    pub a: &'a FaceRow,
    pub b: &'a FaceRow,
}

fn is_never(condition: &Condition) -> bool
    ensures { result ≡ is_never condition.now }
{
    matches!(condition, Condition::Never)
}

/// Whether some condition of the arc is that nothing holds.
fn is_never_routed(arc: &ConditionArc) -> bool
    ensures { result ≡ list_any is_never arc.now.routing }
{
    arc.routing.slice().iter().any(|c| is_never(c))
}

/// Whether the link between these two interfaces is able.
fn is_able(net: &Network, link: &LinkRow, a: &FaceRow, b: &FaceRow) -> bool
    ensures { result ≡ is_able net.now link.now a.now b.now }
{
    net.is_able_end(net.session_at(link.a), a, b) && net.is_able_end(net.session_at(link.b), b, a)
}

/// Adds the arc, unless a condition of it never holds.
fn add(arcs: &mut List<ConditionArc>, arc: ConditionArc) -> Result<(), Memory>
    ensures { OnOk result
        (arcs.new ≡ arcs.old ++ filter (λ x. not (list_any is_never x.routing)) (arc ∷ [])) }
{
    if !is_never_routed(&arc) {
        push(arcs, arc)?;
    }
    Ok(())
}

impl ArcContext<'_> {
    /// The conditions for a route over an able link, in one of its directions.
    fn routing(
        &self,
        alloc: Global,
        ends: &LinkEnds<'_>,
        from_a: bool,
    ) -> Result<List<Condition>, Memory>
        requires { length self.now.index.now.keys.keys < 2 ^ 32 }
        ensures { IfOk result (λ routing. (list : List AnyEdit) →
            IsIndexOf list self.now.index.now → routing
            ≡ routing_of self.now.net.now list self.now.to ends.now.row.now ends.now.a.now
            ends.now.b.now from_a) }
    {
        let tail = ends.row.tail(from_a);
        let session = self.net.session_at(tail);
        let mut routing = List::make(alloc);
        routing.push(session_condition(self.net, self.index, ends.row.a, ends.a))?;
        routing.push(session_condition(self.net, self.index, ends.row.b, ends.b))?;
        routing.push(route_condition(self.net, self.index, self.to, tail, session))?;
        Ok(routing)
    }

    /// The conditions of the arc's two packet lists, for each class.
    fn lists(
        &self,
        alloc: Global,
        tail: &FaceRow,
        head: Face,
        head_row: &FaceRow,
    ) -> Result<List<ArcLists>, Memory>
        requires { length self.now.index.now.keys.keys < 2 ^ 32 }
        ensures { IfOk result (λ lists. (list : List AnyEdit) →
            IsIndexOf list self.now.index.now → lists
            ≡ map (arc_lists self.now.net.now list tail.now head head_row.now)
            self.now.classes.now) }
    {
        let mut lists = List::make(alloc);
        for class in self.classes.slice() {
            push(
                &mut lists,
                arc_lists(self.net, self.index, tail, head, head_row, *class),
            )?;
        }
        Ok(lists)
    }

    /// The arc of an able link in one of its directions.
    fn arc_over(
        &self,
        alloc: Global,
        ends: &LinkEnds<'_>,
        from_a: bool,
    ) -> Result<ConditionArc, Memory>
        requires { length self.now.index.now.keys.keys < 2 ^ 32 }
        ensures { IfOk result (λ arc. (list : List AnyEdit) →
            IsIndexOf list self.now.index.now → arc
            ≡ arc_over self.now.net.now list self.now.to self.now.classes.now
            (ends.now.link.0, ends.now.row.now) ends.now.a.now ends.now.b.now from_a) }
    {
        let tail = if from_a { ends.a } else { ends.b };
        let head = if from_a { ends.b } else { ends.a };
        let routing = self.routing(alloc, ends, from_a)?;
        let lists = self.lists(alloc, tail, ends.row.head(from_a), head)?;
        Ok(ConditionArc {
            link: ends.link,
            tail: tail.router.0,
            head: head.router.0,
            waypoint: ends.row.waypoint,
            routing,
            lists,
        })
    }

    /// Adds the arcs of an able link.
    fn add_able(
        &self,
        alloc: Global,
        arcs: &mut List<ConditionArc>,
        ends: &LinkEnds<'_>,
    ) -> Result<(), Memory>
        requires { length self.now.index.now.keys.keys < 2 ^ 32 }
        ensures { OnOk result ((list : List AnyEdit) → IsIndexOf list self.now.index.now →
            arcs.new ≡ arcs.old
            ++ able_arcs self.now.net.now list self.now.to self.now.classes.now
            (ends.now.link.0, ends.now.row.now) ends.now.a.now ends.now.b.now) }
    {
        let forth = self.arc_over(alloc, ends, true)?;
        add(arcs, forth)?;
        let back = self.arc_over(alloc, ends, false)?;
        add(arcs, back)?;
        Ok(())
    }

    /// Adds the arcs of a link.
    fn add_link(
        &self,
        alloc: Global,
        arcs: &mut List<ConditionArc>,
        link: Link,
        row: &LinkRow,
    ) -> Result<(), Memory>
        requires { length self.now.index.now.keys.keys < 2 ^ 32 }
        ensures { OnOk result ((list : List AnyEdit) → IsIndexOf list self.now.index.now →
            arcs.new ≡ arcs.old
            ++ link_arcs self.now.net.now list self.now.to self.now.classes.now
            (link.0, row.now)) }
    {
        let Some(a) = self.net.faces.get(row.a.0) else {
            return Ok(());
        };
        let Some(b) = self.net.faces.get(row.b.0) else {
            return Ok(());
        };
        if is_able(self.net, row, a, b) {
            self.add_able(alloc, arcs, &LinkEnds { link, row, a, b })?;
        }
        Ok(())
    }

    /// All arcs to the host network, by link.
    pub(crate) fn arcs(&self, alloc: Global) -> Result<List<ConditionArc>, Memory>
        requires { length self.now.index.now.keys.keys < 2 ^ 32 }
        ensures { IfOk result (λ arcs. (list : List AnyEdit) →
            IsIndexOf list self.now.index.now → arcs
            ≡ arcs_to self.now.net.now list self.now.to self.now.classes.now) }
    {
        let mut arcs = List::make(alloc);
        if !self.net.is_told(self.to) {
            return Ok(arcs);
        }
        for (place, row) in self.net.links.slice().iter().enumerate() {
            self.add_link(alloc, &mut arcs, Link(place as u32), row)?;
        }
        Ok(arcs)
    }
}
