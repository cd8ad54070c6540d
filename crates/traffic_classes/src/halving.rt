//! Halving a prefix down to its leaves.
ghost use Rattle.std.specs.Prelude.{◌≡◌, ◌-◌, ◌^◌, ◌<◌, IfOk, OnOk};
ghost use Rattle.traffic_classes.specs.Halves.{IsLowerHalf, IsUpperHalf, AddsLeaves};
ghost use Rattle.traffic_classes.specs.Leaves.{is_strictly_inside, inner_marks, AreLeaves};

use arc_base::{List, Memory, Prefix};
use std::alloc::Global;

/// Whether a prefix lies strictly inside the whole.
fn lies_strictly_inside(prefix: &Prefix, whole: &Prefix) -> bool
    ensures { result ≡ is_strictly_inside whole.now prefix.now }
{
    prefix.inside(whole) && whole.len < prefix.len
}

/// The marks that lie strictly inside the whole.
fn marks_inside(alloc: Global, marks: &[Prefix], whole: &Prefix) -> Result<Vec<Prefix>, Memory>
    ensures { IfOk result (λ inner. inner.items ≡ inner_marks whole.now marks.now) }
{
    let mut inner = Vec::new(alloc);
    for mark in marks {
        if lies_strictly_inside(mark, whole) {
            inner.push(*mark)?;
        }
    }
    Ok(inner)
}

/// The lower half of a prefix of more than one address.
fn lower_half(whole: &Prefix) -> Prefix
    requires { whole.now.len < 32 }
    ensures { IsLowerHalf result whole.now }
{
    Prefix {
        addr: whole.addr,
        len: whole.len + 1,
    }
}

/// The number of addresses in a half of a prefix of this length.
fn half_size(len: u8) -> u32
    requires { len < 32 }
    ensures { result ≡ 2 ^ (31 - len) }
{
    1 << (31 - len)
}

/// The upper half of a prefix of more than one address.
fn upper_half(whole: &Prefix) -> Prefix
    requires { whole.now.len < 32 }
    ensures { IsUpperHalf result whole.now }
{
    Prefix {
        addr: whole.addr + half_size(whole.len),
        len: whole.len + 1,
    }
}

/// Adds the leaves of a prefix under marks.
///
/// Only the marks inside a prefix go on to its halves, so each is looked at twice for each bit of
/// its length.
fn add_leaves(
    alloc: Global,
    leaves: &mut Vec<Prefix>,
    whole: Prefix,
    marks: &[Prefix],
) -> Result<(), Memory>
    ensures { OnOk result (AddsLeaves marks.now whole leaves.old.items leaves.new.items) }
{
    let marks_in_whole = marks_inside(alloc, marks, &whole)?;
    let inner = marks_in_whole.as_slice();
    if inner.is_empty() {
        leaves.push(whole)?;
        return Ok(());
    }
    add_leaves(alloc, leaves, lower_half(&whole), inner)?;
    add_leaves(alloc, leaves, upper_half(&whole), inner)?;
    Ok(())
}

/// The leaves of a prefix under marks, in rising order of their addresses.
pub fn leaves_of(alloc: Global, whole: Prefix, marks: &[Prefix]) -> Result<List<Prefix>, Memory>
    ensures { IfOk result (AreLeaves marks.now whole) }
{
    let mut leaves = Vec::new(alloc);
    add_leaves(alloc, &mut leaves, whole, marks)?;
    List::of(leaves)
}
