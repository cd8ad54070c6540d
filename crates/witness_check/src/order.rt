//! The order in which reports have classes: by their sources, then by their destinations, then by
//! their services.
ghost use Rattle.net_model.specs.Packets.{ShareNoPacket};
ghost use Rattle.std.specs.Prelude.{◌<◌, ◌+◌, IsTrue, AllPairs};
ghost use Rattle.witness_check.specs.Order.{IsBelow, GoesBefore, ComesBefore};

use crate::boxes::size;
use arc_base::Prefix;
use net_model::{Class, ClassSide};

/// Whether each address of the one prefix is below all of the other.
fn is_below(p: Prefix, q: Prefix) -> bool
    ensures { IsTrue result → IsBelow p q }
{
    u64::from(p.addr) + size(p) <= u64::from(q.addr)
}

/// Whether the one class comes before the other by its destinations and services.
fn goes_before(one: Class, other: Class) -> bool
    ensures { IsTrue result → GoesBefore one other }
{
    if is_below(one.to, other.to) {
        return true;
    }
    one.to.is(&other.to) && one.service.high < other.service.low
}

/// Whether the one class comes before the other.
fn comes_before(one: Class, other: Class) -> bool
    ensures { IsTrue result → ComesBefore one other }
{
    if is_below(one.from, other.from) {
        return true;
    }
    one.from.is(&other.from) && goes_before(one, other)
}

/// Whether each class comes before the next one. Then no two of them share a packet.
pub(crate) fn are_in_order(sides: &[ClassSide]) -> bool
    ensures { IsTrue result → AllPairs (λ c d. ShareNoPacket c.class d.class) sides.now }
{
    for place in 1..sides.len() {
        if !comes_before(sides[place - 1].class, sides[place].class) {
            return false;
        }
    }
    true
}
