//! New entries at the front of lists, and the new numbers of the old ones.
ghost use Rattle.arc_base.specs.Numbered.{placed};
ghost use Rattle.edit_space.specs.Working.{AreChanges};
ghost use Rattle.line_patcher.specs.EntryLines.{first_line, new_numbers, edited_lists, entries_at};
ghost use Rattle.line_patcher.specs.EntryLines.{numbers_of, list_entries, list_numbers};
ghost use Rattle.line_patcher.specs.Working.{is_edited, for_edited};
ghost use Rattle.std.specs.Prelude.{◌≡◌, ◌≤◌, ◌++◌, flat_map, length, OnOk};

use crate::additions::NewNumber;
use crate::list_kinds::EditedList;
use arc_base::Memory;
use arc_base::groups::things_at;
use arc_base::limits::EDIT_LIMIT;
use edit_space::Changes;
use ios_words::Command;
use net_build::{ListPlace, Places};
use net_model::Network;
use std::alloc::Global;

fn first_line(place: &ListPlace) -> u32
    ensures { result ≡ first_line place.now }
{
    match place.entries.get(0) {
        Some(line) => *line,
        None => 0,
    }
}

/// Adds the new entries of a list.
fn push_commands<L: EditedList>(
    alloc: Global,
    commands: &mut Vec<(u32, Command)>,
    place: &ListPlace,
    list: &L,
    subjects: &[L::Subject],
) -> Result<(), Memory>
    requires { length subjects.now ≤ EDIT_LIMIT }
    ensures { OnOk result (commands.new.items ≡ commands.old.items ++
        entries_at L.command list.now place.now subjects.now) }
{
    let first = first_line(place);
    for (at, subject) in subjects.iter().enumerate() {
        let command = list.command(alloc, place, at as u32 + 1, *subject)?;
        commands.push((first, command))?;
    }
    Ok(())
}

/// Adds the new numbers of the old entries of a list.
fn push_numbers(
    numbers: &mut Vec<(u32, NewNumber)>,
    place: &ListPlace,
    word: u32,
    step: u64,
    count: usize,
) -> Result<(), Memory>
    requires step { step ≤ 10 }
    requires count { count ≤ EDIT_LIMIT }
    ensures { OnOk result
        (numbers.new.items ≡ numbers.old.items ++ new_numbers place.now word step count) }
{
    if !place.numbered {
        return Ok(());
    }
    for (at, line) in place.entries.slice().iter().enumerate() {
        let number = step * (count as u64 + at as u64 + 1);
        numbers.push((*line, NewNumber { word, number }))?;
    }
    Ok(())
}

/// Whether a list is one of this router to which entries are added.
fn is_edited<L: EditedList>(list: &L, router: u32, subjects: &[L::Subject]) -> bool
    ensures { result ≡ is_edited (L.router list.now) router subjects.now }
{
    match subjects {
        [] => false,
        _ => list.router() == router,
    }
}

/// Adds the new entries of a list, and the new numbers of its old ones, if it is one of this router
/// to which entries are added.
fn push_list<L: EditedList>(
    alloc: Global,
    commands: &mut Vec<(u32, Command)>,
    numbers: &mut Vec<(u32, NewNumber)>,
    own: &Places,
    router: u32,
    list: &L,
    subjects: &[L::Subject],
) -> Result<(), Memory>
    requires { length subjects.now ≤ EDIT_LIMIT }
    ensures commands { OnOk result (commands.new.items ≡ commands.old.items ++
        for_edited (L.router list.now) router (L.place_of own.now list.now)
        (entries_at L.command list.now) subjects.now) }
    ensures numbers { OnOk result (numbers.new.items ≡ numbers.old.items ++
        for_edited (L.router list.now) router (L.place_of own.now list.now)
        (numbers_of L.numbering) subjects.now) }
{
    if !is_edited(list, router, subjects) {
        return Ok(());
    }
    let Some(place) = list.place(own) else {
        return Ok(());
    };
    push_commands(alloc, commands, place, list, subjects)?;
    let (word, step) = L::numbering();
    push_numbers(numbers, place, word, step, subjects.len())?;
    Ok(())
}

/// Adds the new entries of the lists of a router, and the new numbers of their old ones.
pub fn push_lists<L: EditedList>(
    alloc: Global,
    commands: &mut Vec<(u32, Command)>,
    numbers: &mut Vec<(u32, NewNumber)>,
    net: &Network,
    own: &Places,
    changes: &Changes,
    router: u32,
) -> Result<(), Memory>
    requires changes { AreChanges net.now changes.now }
    requires few { length changes.now.edits.items ≤ EDIT_LIMIT }
    ensures commands { OnOk result (commands.new.items ≡ commands.old.items ++ flat_map
        (list_entries (L.lists net.now) (L.place_of own.now) L.command L.change
        changes.now.edits.items)
        (edited_lists (placed (L.lists net.now)) L.router L.change changes.now.edits.items
        router)) }
    ensures numbers { OnOk result (numbers.new.items ≡ numbers.old.items ++ flat_map
        (list_numbers (L.lists net.now) (L.place_of own.now) L.numbering L.change
        changes.now.edits.items)
        (edited_lists (placed (L.lists net.now)) L.router L.change changes.now.edits.items
        router)) }
{
    let added = L::added(net, changes);
    for (id, list) in L::lists(net).slice().iter().enumerate() {
        let subjects = things_at(added, id as u32);
        push_list(alloc, commands, numbers, own, router, list, subjects)?;
    }
    Ok(())
}
