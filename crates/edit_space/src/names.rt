//! The names of new lists.
ghost use Rattle.arc_base.specs.NameForms.{IsNameBefore, texts_at};
ghost use Rattle.edit_list.specs.NewLists.{new_name, is_name_among, free_names};
ghost use Rattle.edit_space.specs.Working.{AreJoined};
ghost use Rattle.std.specs.List.{range_with_len};
ghost use Rattle.std.specs.Prelude.{◌≡◌, ◌<◌, ◌^◌, AllPairs, IfOk, OnOk, length, map, take, filter};
ghost use Rattle.std.specs.Prelude.{not};

use arc_base::{List, Memory, Name, push_number};
use std::alloc::Global;
use std::collections::BTreeSet;

/// Names in byte order.
type Names<'a> = BTreeSet<&'a [u8]>;

/// Adds names to a set.
fn add_names<'a>(set: &mut Names<'a>, names: &'a List<Name>) -> Result<(), Memory>
    ensures { OnOk result (AreJoined (texts_at set.old.keys) names.now (texts_at set.new.keys)) }
{
    for name in names.slice() {
        set.insert(name.bytes())?;
    }
    Ok(())
}

/// The n-th name for new lists.
fn new_name(alloc: Global, n: u64) -> Result<Name, Memory>
    ensures { IfOk result (λ name. name ≡ new_name n) }
{
    let mut text = b"ARC-".to_vec(alloc)?;
    push_number(alloc, &mut text, n)?;
    Ok(Name::of(text))
}

/// The first `count` names for new lists.
fn first_names(alloc: Global, count: u64) -> Result<Vec<Name>, Memory>
    requires { count < 2 ^ 34 }
    ensures { IfOk result (λ names. names.items ≡ map new_name (range_with_len 1 count)) }
{
    let mut names = Vec::new(alloc);
    for n in 1..count + 1 {
        names.push(new_name(alloc, n)?)?;
    }
    Ok(names)
}

/// The first `count` candidates that are not among `names`.
fn first_free<'a>(
    alloc: Global,
    names: &'a List<Name>,
    candidates: &'a [Name],
    count: usize,
) -> Result<List<Name>, Memory>
    ensures { IfOk result (λ free.
        free ≡ take count (filter (λ name. not (is_name_among names.now name)) candidates.now)) }
{
    let mut taken = BTreeSet::new(alloc);
    add_names(&mut taken, names)?;
    let mut free = Vec::new(alloc);
    for name in candidates {
        if free.len() == count {
            break;
        }
        if !taken.contains(&name.bytes()) {
            free.push(Name::make(alloc, name.bytes())?)?;
        }
    }
    List::of(free)
}

/// The first `count` names for new lists that are not among `names`.
pub fn free_names(alloc: Global, names: &List<Name>, count: usize) -> Result<List<Name>, Memory>
    requires { count < 2 ^ 33 }
    ensures names { IfOk result (λ free. free ≡ free_names names.now count) }
    ensures count { IfOk result (λ free. length free ≡ count) }
    ensures limit { length names.now < 2 ^ 32 }
{
    let limit = u64::from(names.len()) + count as u64;
    if count == 0 {
        return Ok(List::make(alloc));
    }
    let candidates = first_names(alloc, limit)?;
    first_free(alloc, names, &candidates, count)
}

/// The names, in their order.
fn listed(alloc: Global, names: &Names<'_>) -> Result<List<Name>, Memory>
    ensures names { IfOk result (λ listed. listed ≡ texts_at names.now.keys) }
    ensures order { IfOk result (AllPairs IsNameBefore) }
{
    let mut listed = Vec::new(alloc);
    for name in names {
        listed.push(Name::make(alloc, name)?)?;
    }
    List::of(listed)
}

/// The names of both lists, each once, in byte order.
pub fn joined_names(
    alloc: Global,
    names: &List<Name>,
    more: &List<Name>,
) -> Result<List<Name>, Memory>
    ensures order { IfOk result (AllPairs IsNameBefore) }
    ensures names { IfOk result (AreJoined names.now more.now) }
{
    let mut set = BTreeSet::new(alloc);
    add_names(&mut set, names)?;
    add_names(&mut set, more)?;
    listed(alloc, &set)
}
