//! Items that each have a number, grouped by their numbers.
ghost use Rattle.arc_base.specs.Numbered.{of_number, by_number, is_empty, IsTableOf};
ghost use Rattle.std.specs.List.{list_any};
ghost use Rattle.std.specs.Prelude.{◌≡◌, ◌==◌, ◌++◌, ◌∷◌, [], true, slice_get, slice_set};
ghost use Rattle.std.specs.Prelude.{slice_index_or, unwrap_or, not, IfOk, OnOk};

use crate::memory::Memory;
use std::alloc::Global;
use std::marker::Model;

/// The items with one number.
#[derive(Debug, Drop)]
pub struct Group<T> {
    items: Vec<T>,
}

impl<T> Model for Group<T> {
    ghost use Rattle.std.specs.Coded.{coded_list};
    ghost use Rattle.std.specs.Prelude.{List as Items};

    ghost Value = { Items T };

    ghost coded = { coded_list T.code };

    ghost view = { λ g. g.items.items };
}

impl<T> Group<T> {
    /// The items, in their order.
    pub fn slice(&self) -> &[T]
        ensures { result.now ≡ self.now }
    {
        &self.items
    }
}

/// `count` empty groups.
pub fn empty_groups<T>(alloc: Global, count: u32) -> Result<Vec<Group<T>>, Memory>
where
    T: Drop,
    ensures { IfOk result (λ groups. IsTableOf count (λ number. []) groups.items) }
{
    let mut groups = Vec::new(alloc);
    for _ in 0..count {
        let items = Vec::new(alloc);
        groups.push(Group { items })?;
    }
    Ok(groups)
}

/// Appends an item to the group of its number, if there is one.
pub fn add<T>(groups: &mut Vec<Group<T>>, number: u32, thing: T) -> Result<(), Memory>
where
    T: Drop,
    ensures { OnOk result (groups.new.items ≡ slice_set groups.old.items number
        (slice_index_or groups.old.items number [] ++ thing ∷ [])) }
{
    if let Some(group) = groups.get_mut(number as usize) {
        group.items.push(thing)?;
    }
    Ok(())
}

/// A group for each number below the count, with the items of that number.
pub fn grouped<T>(alloc: Global, count: u32, things: &[(u32, T)]) -> Result<Vec<Group<T>>, Memory>
where
    T: Copy + Drop,
    ensures { IfOk result (λ groups.
        IsTableOf count (λ number. of_number number things.now) groups.items) }
{
    let mut groups = empty_groups(alloc, count)?;
    for (number, thing) in things {
        add(&mut groups, *number, *thing)?;
    }
    Ok(groups)
}

/// The items with a number below the count, sorted by number; those of one number keep their order.
pub fn by_number<T>(alloc: Global, count: u32, things: &[(u32, T)]) -> Result<Vec<T>, Memory>
where
    T: Copy + Drop,
    ensures { IfOk result (λ list. list.items ≡ by_number count things.now) }
{
    let groups = grouped(alloc, count, things)?;
    let mut list = Vec::new(alloc);
    for group in &groups {
        append(&mut list, group.slice())?;
    }
    Ok(list)
}

/// Appends items.
pub fn append<T>(list: &mut Vec<T>, things: &[T]) -> Result<(), Memory>
where
    T: Copy + Drop,
    ensures { OnOk result (list.new.items ≡ list.old.items ++ things.now) }
{
    for thing in things {
        list.push(*thing)?;
    }
    Ok(())
}

/// For each number below the count, whether it is one of these.
pub fn marked(alloc: Global, count: u32, numbers: &[u32]) -> Result<Vec<bool>, Memory>
    ensures { IfOk result (λ flags.
        IsTableOf count (λ number. list_any (λ n. n == number) numbers.now) flags.items) }
{
    let mut flags = Vec::from_elem(alloc, false, count as usize)?;
    for number in numbers {
        mark(&mut flags, *number as usize);
    }
    Ok(flags)
}

/// Marks the flag at a place, if there is one.
fn mark(flags: &mut Vec<bool>, at: usize)
    ensures { flags.new.items ≡ slice_set flags.old.items at true }
{
    if at < flags.len() {
        flags[at] = true;
    }
}

/// The items of the group at a place, and none where there is no such group.
pub fn things_at<T>(groups: &[Group<T>], at: u32) -> &[T]
    ensures { result.now ≡ unwrap_or (slice_get groups.now at) [] }
{
    match groups.get(at as usize) {
        Some(group) => group.slice(),
        None => &[],
    }
}

/// Whether the group at a place has items.
pub fn is_filled<T>(groups: &[Group<T>], at: u32) -> bool
    ensures { result ≡ not (is_empty (unwrap_or (slice_get groups.now at) [])) }
{
    !things_at(groups, at).is_empty()
}
