//! Stable distances by Dijkstra's algorithm (RFC 2328, section 16.1) over a binary heap: for V
//! routers and E arcs in O((V + E) log E) time.
ghost use Rattle.route_trace.specs.Queue.{IsQueue, is_nearer};
ghost use Rattle.route_trace.specs.Routes.{distance_map};
ghost use Rattle.route_trace.specs.Steps.{IsFit, IsGiven, IsLeastOf, IsStableOver, IsNearest};
ghost use Rattle.route_trace.specs.Steps.{waiting, lesser};
ghost use Rattle.std.specs.BinaryHeap.{heap_items};
ghost use Rattle.std.specs.Prelude.{◌≡◌, ◌+◌, ◌^◌, ◌<◌, ◌⊎◌, ℕ, false, true, None, Some, length};
ghost use Rattle.std.specs.Prelude.{slice_set, replicate, All, IfOk, IfSome, MatchOption, OnOk};

use crate::groups::grouped;
use crate::steps::{End, Step};
use arc_base::{Memory, Router};
use std::alloc::Global;
use std::cmp::Reverse;
use std::collections::BinaryHeap;

/// How far the distances have got. A settled router has its final distance, and the others the
/// least that settled ones offer. The queue has each distance that a router was offered and took,
/// with the router, nearest first. An entry of a settled router is passed over.
#[derive(Drop)]
struct Front {
    distances: Vec<Option<u64>>,
    settled: Vec<bool>,
    queue: BinaryHeap<Reverse<(u64, u32)>>,
}

/// The stable distances over the steps, by router.
pub(crate) fn settle(
    alloc: Global,
    steps: &[Step],
    routers: u32,
    owner: Router,
) -> Result<Vec<Option<u64>>, Memory>
    requires owner { owner.0 < routers }
    requires fit { All (IsFit routers) steps.now }
    ensures whole { IfOk result (λ distances. length distances.items ≡ routers) }
    ensures stable { IfOk result (λ distances.
        IsStableOver steps.now owner.0 (distance_map distances.items)) }
{
    let groups = grouped(alloc, steps, End::Head, routers)?;
    let mut front = Front::start(alloc, routers, owner, steps.len() + 1)?;
    'nearest: while let Some((at, distance)) = front.settle_nearest() {
        front.relax(&groups[at.0 as usize], distance)?;
    }
    Ok(front.distances)
}

impl Front {
    /// Only the owner has a distance and waits, and no router is settled. The queue has room for
    /// `room` entries.
    fn start(alloc: Global, routers: u32, owner: Router, room: usize) -> Result<Front, Memory>
        requires { owner.0 < routers }
        ensures distances { IfOk result (λ front.
            front.distances.items ≡ slice_set (replicate routers None) owner.0 (Some 0)) }
        ensures settled { IfOk result (λ front. front.settled.items ≡ replicate routers false) }
        ensures queue { IfOk result (λ front.
            IsQueue front.distances.items front.settled.items (heap_items front.queue)) }
    {
        let mut distances = Vec::from_elem(alloc, None, routers as usize)?;
        distances[owner.0 as usize] = Some(0);
        let settled = Vec::from_elem(alloc, false, routers as usize)?;
        let mut queue = BinaryHeap::with_capacity(alloc, room)?;
        queue.push(Reverse((0, owner.0)))?;
        Ok(Front {
            distances,
            settled,
            queue,
        })
    }

    /// Settles the router that waits with the least distance, and gives it and that distance.
    fn settle_nearest(&mut self) -> Option<(Router, u64)>
        requires whole { length self.old.settled.items ≡ length self.old.distances.items }
        requires queue { IsQueue self.old.distances.items self.old.settled.items
            (heap_items self.old.queue) }
        ensures distances { self.new.distances.items ≡ self.old.distances.items }
        ensures nearest { MatchOption result
            ((u : ℕ) → waiting self.old.distances.items self.old.settled.items u ≡ None) (λ found.
            IsNearest (waiting self.old.distances.items self.old.settled.items) found.0.0 found.1) }
        ensures settled { IfSome result (λ found.
            self.new.settled.items ≡ slice_set self.old.settled.items found.0.0 true) }
        ensures queue { IfSome result (λ found.
            IsQueue self.new.distances.items self.new.settled.items (heap_items self.new.queue)) }
    {
        'entry: while let Some(Reverse((distance, router))) = self.queue.pop() {
            let at = router as usize;
            if !self.settled[at] {
                self.settled[at] = true;
                return Some((Router(router), distance));
            }
        }
        None
    }

    /// Offers the routers that the steps lead from what they cost on top of this distance.
    fn relax(&mut self, steps: &[Step], from: u64) -> Result<(), Memory>
        requires tails { All (λ s. s.tail.0 < length self.old.distances.items) steps.now }
        requires sums { All (λ s. from + s.cost < 2 ^ 64) steps.now }
        requires queue { IsQueue self.old.distances.items self.old.settled.items
            (heap_items self.old.queue) }
        ensures whole { OnOk result
            (length self.new.distances.items ≡ length self.old.distances.items) }
        ensures settled { OnOk result (self.new.settled.items ≡ self.old.settled.items) }
        ensures queue { OnOk result
            (IsQueue self.new.distances.items self.new.settled.items (heap_items self.new.queue)) }
        ensures least { OnOk result ((u : ℕ) →
            IsLeastOf (λ n. (distance_map self.old.distances.items u ≡ Some n) ⊎
            IsGiven steps.now from u n) (distance_map self.new.distances.items u)) }
    {
        for step in steps {
            self.offer(step.tail, from + step.cost)?;
        }
        Ok(())
    }

    /// Offers a router a distance. It takes it where it has none or a greater one.
    fn offer(&mut self, router: Router, distance: u64) -> Result<(), Memory>
        requires within { router.0 < length self.old.distances.items }
        requires queue { IsQueue self.old.distances.items self.old.settled.items
            (heap_items self.old.queue) }
        ensures distances { OnOk result
            (self.new.distances.items ≡ slice_set self.old.distances.items router.0
            (Some (lesser (distance_map self.old.distances.items router.0) distance))) }
        ensures settled { OnOk result (self.new.settled.items ≡ self.old.settled.items) }
        ensures queue { OnOk result
            (IsQueue self.new.distances.items self.new.settled.items (heap_items self.new.queue)) }
    {
        let at = router.0 as usize;
        if is_nearer(distance, self.distances[at]) {
            self.distances[at] = Some(distance);
            self.queue.push(Reverse((distance, router.0)))?;
        }
        Ok(())
    }
}

/// Whether the distance is less than the other, or there is no other.
fn is_nearer(distance: u64, than: Option<u64>) -> bool
    ensures { result ≡ is_nearer distance than }
{
    match than {
        Some(than) => distance < than,
        None => true,
    }
}
