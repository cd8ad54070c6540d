//! The copies of the router files that edits change.
ghost use Rattle.edit_list.specs.EditLists.{AreEdits};
ghost use Rattle.edit_list.specs.Prices.{chosen_of};
ghost use Rattle.file_copies.specs.Changes.{Changes};
ghost use Rattle.net_build.specs.Networks.{IsBuiltWithin};
ghost use Rattle.std.specs.Prelude.{◌≡◌, ◌≤◌, [], length, All, IfOk};

use crate::outputs::copies;
use arc_base::limits::{EDIT_LIMIT, EDITED_ENTRY_LIMIT, EDITED_FILE_LIMIT};
use arc_base::{List, Memory, Name};
use edit_list::Edit;
use line_patcher::patch;
use net_build::laws::asking_more_changes_no_network;
use net_model::Document;
use run_inputs::Sources;
use std::alloc::Global;

/// The copies of the router files that the chosen edits change, with their names.
pub fn changes(
    alloc: Global,
    suffix: &Name,
    doc: &Document,
    sources: &Sources,
    edits: &List<Edit>,
    chosen: &[bool],
) -> Result<List<(Name, Name)>, Memory>
    requires built { IsBuiltWithin [] EDITED_ENTRY_LIMIT doc.now
        sources.now.files sources.now.built }
    requires count { length sources.now.files ≡ length doc.now.routers }
    requires bytes { All (λ text. length text ≤ EDITED_FILE_LIMIT) sources.now.files }
    requires edits { AreEdits sources.now.built.net doc.now edits.now }
    requires few { length edits.now ≤ EDIT_LIMIT }
    requires flags { length chosen.now ≡ length edits.now }
    ensures { IfOk result (Changes suffix.now doc.now sources.now.built sources.now.files
        (chosen_of edits.now chosen.now)) }
{
    asking_more_changes_no_network();
    let new = patch(alloc, doc, &sources.built, &sources.files, edits, chosen)?;
    copies(
        alloc,
        suffix,
        doc.routers.slice(),
        sources.files.slice(),
        new,
    )
}
