//! What is added to one file: commands and new numbers, each with the number of a line.
ghost use Rattle.edit_list.specs.NewLists.{named_lists};
ghost use Rattle.line_patcher.specs.Additions.{all_at, commands_before, commands_after, numbers_at};
ghost use Rattle.line_patcher.specs.Working.{IsPlan};
ghost use Rattle.std.specs.List.{cons_option};
ghost use Rattle.std.specs.Prelude.{◌≡◌, ◌≤◌, ◌<◌, ◌++◌, [], length, IfOk, OnOk};

use crate::entries::push_lists;
use crate::new_lists::{
    NamedList, commands_of_new_lists, push_filter_commands, push_group_commands,
};
use crate::plans::Plan;
use crate::sessions::push_session_commands;
use arc_base::Memory;
use arc_base::groups::things_at;
use arc_base::limits::EDIT_LIMIT;
use ios_words::Command;
use net_build::{Built, Places};
use net_model::{PacketList, RouteList};
use std::alloc::Global;

/// A number that replaces another in a line.
#[derive(Clone, Copy, Debug)]
pub struct NewNumber {
    /// The word that it is, counted from 0.
    pub word: u32,
    pub number: u64,
}

/// Each of the commands, with the number of the line that it is added at.
fn all_at(alloc: Global, number: u32, commands: Vec<Command>) -> Result<Vec<(u32, Command)>, Memory>
    ensures { IfOk result (λ all. all.items ≡ all_at number commands.items) }
{
    let mut all = Vec::new(alloc);
    for command in commands {
        all.push((number, command))?;
    }
    Ok(all)
}

/// Appends the item, if there is one.
pub fn push_some<T>(things: &mut Vec<T>, thing: Option<T>) -> Result<(), Memory>
where
    T: Drop,
    ensures { OnOk result (things.new.items ≡ things.old.items ++ cons_option thing []) }
{
    match thing {
        Some(one) => {
            things.push(one)?;
            Ok(())
        }
        None => Ok(()),
    }
}

/// The commands that come before lines of the file of a router. To the numbers it adds those of the
/// old entries in the lists that get new ones.
pub fn commands_before(
    alloc: Global,
    numbers: &mut Vec<(u32, NewNumber)>,
    built: &Built,
    plan: &Plan,
    router: u32,
    own: &Places,
    named: &[NamedList],
) -> Result<Vec<(u32, Command)>, Memory>
    requires plan { IsPlan built.now plan.now }
    requires few { length plan.now.changes.edits.items ≤ EDIT_LIMIT }
    requires named { named.now ≡ named_lists built.now.net plan.now.changes.edits.items router }
    ensures commands { IfOk result (λ commands. commands.items
        ≡ commands_before built.now.net own.now plan.now.changes.edits.items router) }
    ensures numbers { IfOk result (λ _. numbers.new.items ≡ numbers.old.items ++
        numbers_at built.now.net own.now plan.now.changes.edits.items router) }
{
    let net = &built.net;
    let changes = &plan.changes;
    let new = commands_of_new_lists(alloc, net, changes, named)?;
    let mut commands = all_at(alloc, own.process, new)?;
    push_lists::<PacketList>(alloc, &mut commands, numbers, net, own, changes, router)?;
    push_lists::<RouteList>(alloc, &mut commands, numbers, net, own, changes, router)?;
    Ok(commands)
}

/// The commands that come after lines of the file of a router.
pub fn commands_after(
    alloc: Global,
    built: &Built,
    plan: &Plan,
    router: u32,
    own: &Places,
    named: &[NamedList],
) -> Result<Vec<(u32, Command)>, Memory>
    requires plan { IsPlan built.now plan.now }
    requires router { router < length built.now.net.routers }
    requires named { named.now ≡ named_lists built.now.net plan.now.changes.edits.items router }
    ensures { IfOk result (λ commands. commands.items ≡ commands_after built.now.net
        built.now.places own.now plan.now.changes.edits.items router) }
{
    let net = &built.net;
    let mut process = Vec::new(alloc);
    push_session_commands(alloc, &mut process, net, things_at(&plan.turned, router))?;
    push_filter_commands(alloc, &mut process, net, named)?;
    let mut commands = all_at(alloc, own.process_last, process)?;
    push_group_commands(alloc, &mut commands, &plan.faces, named)?;
    Ok(commands)
}
