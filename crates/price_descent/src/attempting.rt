//! One search of a descent.
ghost use Rattle.clean_logs.specs.CleanLogs.{additions};
ghost use Rattle.cnf_types.specs.declared.clauses.Formula.{Formula};
ghost use Rattle.price_descent.specs.Outcomes.{IsKnownBound};
ghost use Rattle.price_descent.specs.Prices.{ArePriced};
ghost use Rattle.price_descent.specs.Progress.{IsAttempt, IsUnderway};
ghost use Rattle.proof_check.specs.Logs.{adds_empty};
ghost use Rattle.sat_core.specs.Trails.{IsOf};
ghost use Rattle.std.specs.List.{list_any};
ghost use Rattle.std.specs.Prelude.{◌≡◌, ◌+◌, ◌<◌, ◌≤◌, ◌^◌, ℕ, length, All, IfOk, IsFalse};

use crate::found::Offer;
use crate::offering::offer;
use crate::prices::Prices;
use arc_base::limits::CONFLICT_LIMIT;
use arc_base::{List, Memory};
use cnf_types::Lit;
use proof_log::Log;
use run_progress::Listener;
use sat_core::Core;
use sat_search::{Found, additions, search_first};
use std::alloc::Global;

/// What a search for a cheaper model has come to.
#[derive(Debug, Drop)]
pub(crate) enum Attempt {
    /// There is none, as the log shows.
    Refuted,
    /// The log adds as many clauses as the limit allows.
    Spent,
    /// There is one.
    Offered(Offer),
}

/// Searches for a model that keeps the bounds of the log, and prices its first `count` values.
/// Where the log adds `limit` clauses, it does not search.
pub(crate) fn make_attempt<P: Prices, L: Listener>(
    alloc: Global,
    prices: &P,
    core: &mut Core,
    log: &mut Log,
    tops: &List<Lit>,
    count: u32,
    limit: u64,
    listener: &mut L,
) -> Result<Attempt, Memory>
    requires first { All (IsOf core.old.vars) tops.now }
    requires values { count ≤ core.old.vars }
    requires level { core.old.level ≡ 0 }
    requires numbers { core.old.last_id + limit < 2 ^ 63 }
    requires few { limit ≤ CONFLICT_LIMIT }
    requires most { additions log.old.steps ≤ limit }
    requires filled { IsFalse (list_any adds_empty log.old.steps) }
    requires short { length log.old.steps < 2 ^ 31 }
    ensures attempt { IfOk result (λ attempt. (f : Formula) (most lowest : ℕ) →
        ArePriced (P.price_of prices.now) f tops.now count most → lowest ≤ most →
        IsUnderway f tops.now most lowest log.old.steps core.old →
        All (IsKnownBound (P.price_of prices.now) f tops.now count most) log.old.steps →
        IsAttempt (P.price_of prices.now) f tops.now count most lowest limit log.new.steps core.new
        attempt) }
    ensures limit { additions log.new.steps ≤ limit }
{
    if additions(log.steps.slice()) == limit {
        return Ok(Attempt::Spent);
    }
    match search_first(alloc, core, tops.slice(), log, limit, listener)? {
        Found::Refuted => Ok(Attempt::Refuted),
        Found::Budget => Ok(Attempt::Spent),
        Found::Model(values) => Ok(Attempt::Offered(offer(alloc, prices, &values, count)?)),
    }
}
