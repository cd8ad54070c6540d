//! Marks by their first addresses, of which those inside a prefix are found by binary search.
ghost use Rattle.arc_base.specs.Addresses.{Holds, size};
ghost use Rattle.arc_base.specs.declared.prefix.Prefix.{Prefix as AnyPrefix};
ghost use Rattle.std.specs.List.Sorted.{IsNonDecreasingBy, IsPartitionPoint};
ghost use Rattle.std.specs.Prelude.{◌≡◌, ◌<◌, ◌≤◌, ◌+◌, Contains, IfOk, length};
ghost use Rattle.traffic_classes.specs.SortedMarks.{AreSorted};

use arc_base::{Memory, Prefix};
use std::alloc::Global;

/// The marks by their first addresses.
pub fn sorted(alloc: Global, marks: &[Prefix]) -> Result<Vec<Prefix>, Memory>
    ensures { IfOk result (λ sorted. AreSorted marks.now sorted.items) }
{
    let mut sorted = marks.to_vec(alloc)?;
    sorted.sort_by_key(|mark| mark.addr)?;
    Ok(sorted)
}

/// How many of the marks begin before an address.
fn count_before(sorted: &[Prefix], address: u64) -> usize
    requires { IsNonDecreasingBy (λ p. p.addr) sorted.now }
    ensures within { result ≤ length sorted.now }
    ensures point { IsPartitionPoint (λ p. p.addr < address) (λ p. address ≤ p.addr)
        sorted.now result }
{
    sorted.partition_point(|mark| u64::from(mark.addr) < address)
}

/// The address behind the last one of the prefix.
fn end_of(whole: &Prefix) -> u64
    ensures { result ≡ whole.now.addr + size whole.now }
{
    u64::from(whole.addr) + (1u64 << (32 - whole.len))
}

/// Those of the marks that begin inside the whole.
pub fn begin_inside<'a>(sorted: &'a [Prefix], whole: &Prefix) -> &'a [Prefix]
    requires { IsNonDecreasingBy (λ p. p.addr) sorted.now }
    ensures part { (p : AnyPrefix) → Contains result.now p → Contains sorted.now p }
    ensures inside { (p : AnyPrefix) → Contains sorted.now p → Holds whole.now p.addr →
        Contains result.now p }
{
    let start = count_before(sorted, u64::from(whole.addr));
    let end = count_before(sorted, end_of(whole));
    &sorted[start..end]
}
