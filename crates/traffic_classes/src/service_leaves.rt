//! Cutting a range of services into its leaves.
ghost use Rattle.std.specs.List.Sorted.{IsStrictlyIncreasing};
ghost use Rattle.std.specs.Prelude.{◌≡◌, ℕ, ◌↔◌, ◌++◌, IfOk, OnOk, Contains};
ghost use Rattle.traffic_classes.specs.ServiceLeaves.{IsCutAt, AreServiceLeaves};
ghost use Rattle.traffic_classes.specs.ServiceParts.{inner_ends, RiseBetween, ArePartsBetween};

use arc_base::{List, Memory};
use net_model::Service;
use std::alloc::Global;

/// Adds the numbers inside the whole, except for its first, at which a mark begins or has just
/// ended.
fn add_ends(cuts: &mut Vec<u32>, mark: &Service, whole: &Service) -> Result<(), Memory>
    ensures { OnOk result (cuts.new.items ≡ cuts.old.items ++ inner_ends whole.now mark.now) }
{
    if whole.low < mark.low && mark.low <= whole.high {
        cuts.push(mark.low)?;
    }
    if whole.low <= mark.high && mark.high < whole.high {
        cuts.push(mark.high + 1)?;
    }
    Ok(())
}

/// The numbers at which the leaves of a range begin under marks, except for the first, each once
/// and in rising order.
fn cuts_inside(alloc: Global, marks: &[Service], whole: &Service) -> Result<Vec<u32>, Memory>
    ensures rising { IfOk result (λ cuts. IsStrictlyIncreasing cuts.items) }
    ensures each { IfOk result (λ cuts. (c : ℕ) →
        Contains cuts.items c ↔ IsCutAt marks.now whole.now c) }
{
    let mut cuts = Vec::new(alloc);
    for mark in marks {
        add_ends(&mut cuts, mark, whole)?;
    }
    cuts.sort_unstable();
    cuts.dedup();
    Ok(cuts)
}

/// The parts of a range, divided at rising numbers.
fn parts_between(alloc: Global, whole: &Service, cuts: &[u32]) -> Result<Vec<Service>, Memory>
    requires { RiseBetween whole.now.low cuts.now whole.now.high }
    ensures { IfOk result (λ parts.
        ArePartsBetween whole.now.low cuts.now whole.now.high parts.items) }
{
    let mut parts = Vec::new(alloc);
    let mut low = whole.low;
    for cut in cuts {
        parts.push(Service {
            low,
            high: *cut - 1,
        })?;
        low = *cut;
    }
    parts.push(Service {
        low,
        high: whole.high,
    })?;
    Ok(parts)
}

/// The leaves of a range of services under marks, in rising order.
///
/// It takes n log n steps for n marks.
pub fn service_leaves_of(
    alloc: Global,
    whole: Service,
    marks: &[Service],
) -> Result<List<Service>, Memory>
    ensures { IfOk result (AreServiceLeaves marks.now whole) }
{
    let cuts = cuts_inside(alloc, marks, &whole)?;
    List::of(parts_between(alloc, &whole, &cuts)?)
}
