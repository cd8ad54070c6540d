//! The walk along the chain of a literal that became false.
ghost use Rattle.sat_core.specs.Placed.{SameIds};
ghost use Rattle.sat_core.specs.Progressing.{Continues, FalsifiedAt, IsWalkedFor};
ghost use Rattle.sat_core.specs.Watches.{AreGuarded, IsLinked};
ghost use Rattle.std.specs.Prelude.{◌+◌, IsNone, IfSome};

use crate::assigned::Held;
use crate::store::Store;
use crate::trail::Trail;
use crate::visiting::{Seen, visit};
use clause_pool::Pool;
use cnf_types::Lit;

/// Visits the clauses that a false literal watches, and makes true what they imply. The answer is a
/// clause whose literals are all false, where the walk came to one.
pub(crate) fn walk(
    store: &Store,
    pool: &mut Pool,
    trail: &mut Trail,
    floor: u32,
    done: u32,
    lit: Lit,
) -> Option<Held>
    requires walked { IsWalkedFor floor done lit store.now.clauses pool.old trail.old }
    ensures linked { IsLinked trail.new.vars store.now.clauses pool.new }
    ensures ids { SameIds pool.old pool.new }
    ensures continues { Continues store.now.clauses trail.old trail.new }
    ensures guarded { AreGuarded floor done trail.new.entries pool.new }
    ensures none { IsNone result → AreGuarded floor (done + 1) trail.new.entries pool.new }
    ensures some { IfSome result (FalsifiedAt store.now.clauses trail.new.entries) }
{
    let mut before = None;
    let mut at = pool.first(lit);
    while let Some(p) = at {
        at = pool.next(p, lit);
        match visit(pool, trail, p, before, lit) {
            Seen::Kept => before = Some(p),
            Seen::Moved => {}
            Seen::Implied(other) => {
                trail.assign(other, Held(pool.id(p) as u32));
                before = Some(p);
            }
            Seen::Falsified => return Some(Held(pool.id(p) as u32)),
        }
    }
    None
}
