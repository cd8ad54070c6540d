//! The residual graph of a flow: the room that links have for one more unit, and how that unit is
//! sent.
ghost use Rattle.graph_flow.specs.Residual.{residual_of, unit_of, may_pass, reversed, turn};
ghost use Rattle.std.specs.Prelude.{◌≡◌, ◌<◌, length};

use crate::arcs::Arc;

/// The arc over which one more unit can go by way of an arc of the graph: the arc itself where its
/// link carries nothing, and the arc turned round where it carries a unit, which is then taken
/// back.
pub(crate) fn residual_of(carried: &[Option<Arc>], arc: &Arc) -> Option<Arc>
    ensures { result ≡ residual_of carried.now arc.now }
{
    let link = arc.link.0 as usize;
    if link >= carried.len() {
        return Some(*arc);
    }
    match carried[link] {
        None => Some(*arc),
        Some(used) if used.head == arc.head => Some(reversed(&used)),
        Some(_) => None,
    }
}

/// The arc, if its link carries a unit over it and a path of units that begins with the first arc
/// may go over it.
pub(crate) fn unit_of(carried: &[Option<Arc>], first: &Arc, arc: &Arc) -> Option<Arc>
    ensures { result ≡ unit_of carried.now first.now arc.now }
{
    let link = arc.link.0 as usize;
    if link >= carried.len() {
        return None;
    }
    match carried[link] {
        Some(used) if used.head == arc.head && may_pass(first, arc) => Some(*arc),
        _ => None,
    }
}

fn may_pass(first: &Arc, arc: &Arc) -> bool
    ensures { result ≡ may_pass first.now arc.now }
{
    arc.tail != first.tail || arc.link.0 == first.link.0
}

fn reversed(arc: &Arc) -> Arc
    ensures { result ≡ reversed arc.now }
{
    Arc {
        link: arc.link,
        tail: arc.head,
        head: arc.tail,
        cost: arc.cost,
    }
}

/// Sends one more unit over an arc of the residual network.
pub(crate) fn turn(carried: &mut [Option<Arc>], arc: Arc)
    requires { arc.link.0 < length carried.old }
    ensures { carried.new ≡ turn carried.old arc }
{
    let link = arc.link.0 as usize;
    carried[link] = match carried[link] {
        None => Some(arc),
        Some(_) => None,
    };
}
