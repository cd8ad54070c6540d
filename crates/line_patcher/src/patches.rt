//! The files after edits.
ghost use Rattle.edit_list.specs.EditLists.{AreEdits};
ghost use Rattle.edit_list.specs.Prices.{chosen_of};
ghost use Rattle.line_patcher.specs.Patches.{IsPatched, ArePatched};
ghost use Rattle.line_patcher.specs.Working.{IsPlan, IsFileOf};
ghost use Rattle.net_build.specs.Networks.{IsBuilt};
ghost use Rattle.std.specs.Prelude.{◌≡◌, ◌≤◌, length, All, IfOk};

use crate::additions::{commands_after, commands_before};
use crate::new_lists::named_lists;
use crate::plans::Plan;
use crate::texts::patched_text;
use arc_base::groups::things_at;
use arc_base::limits::{EDIT_LIMIT, EDITED_FILE_LIMIT};
use arc_base::{List, Memory, Name};
use edit_list::{Edit, chosen_edits};
use net_build::Built;
use net_model::Document;
use std::alloc::Global;

/// The file of a router after the edits of a plan.
fn patched_file(
    alloc: Global,
    built: &Built,
    plan: &Plan,
    router: usize,
    text: &[u8],
) -> Result<Name, Memory>
    requires plan { IsPlan built.now plan.now }
    requires few { length plan.now.changes.edits.items ≤ EDIT_LIMIT }
    requires file { IsFileOf built.now router text.now }
    requires bytes { length text.now ≤ EDITED_FILE_LIMIT }
    ensures { IfOk result (IsPatched built.now plan.now.changes.edits.items router text.now) }
{
    let lines = &built.lines.slice()[router];
    let own = &built.places.slice()[router];
    let id = router as u32;
    let lists = things_at(&plan.new_lists, id);
    let named = named_lists(alloc, lists, plan.names[router].slice())?;
    let mut numbers = Vec::new(alloc);
    let before = commands_before(alloc, &mut numbers, built, plan, id, own, &named)?;
    let after = commands_after(alloc, built, plan, id, own, &named)?;
    patched_text(alloc, text, lines, before, numbers, after)
}

/// The router files after the chosen edits, in the order of the document. A file that no chosen
/// edit concerns is given as it is. The time is linear in the bytes of the files, in what is added
/// to them, and in the product of the numbers of routers and of lists.
pub fn patch(
    alloc: Global,
    doc: &Document,
    built: &Built,
    files: &List<Name>,
    edits: &List<Edit>,
    chosen: &[bool],
) -> Result<List<Name>, Memory>
    requires built { IsBuilt doc.now files.now built.now }
    requires bytes { All (λ text. length text ≤ EDITED_FILE_LIMIT) files.now }
    requires edits { AreEdits built.now.net doc.now edits.now }
    requires few { length edits.now ≤ EDIT_LIMIT }
    requires flags { length chosen.now ≡ length edits.now }
    ensures { IfOk result (ArePatched built.now (chosen_of edits.now chosen.now) files.now) }
{
    let plan = Plan::of(alloc, built, chosen_edits(alloc, edits.slice(), chosen)?)?;
    let mut new = List::make(alloc);
    for (router, text) in files.slice().iter().enumerate() {
        new.push(patched_file(alloc, built, &plan, router, text.bytes())?)?;
    }
    Ok(new)
}
