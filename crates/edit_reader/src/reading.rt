//! The edits that an edit file names.
ghost use Rattle.edit_reader.specs.EditFiles.{is_blank_line, AreEditLines, AreMarked};
ghost use Rattle.edit_reader.specs.EditFiles.{HasOneFlagEach, ReadsEdits};
ghost use Rattle.edit_reader.specs.Places.{AreBelow, FindsEdits};
ghost use Rattle.std.specs.Prelude.{◌≡◌, ◌^◌, ◌<◌, ◌++◌, [], ◌∷◌, ℕ, List as Items, length, IfOk};
ghost use Rattle.std.specs.Prelude.{MatchBool};

use crate::places::{TextPlaces, edit_texts};
use arc_base::{List, Memory};
use bstr::ByteSlice;
use edit_list::Edit;
use net_model::Network;
use std::alloc::Global;

/// What an edit file names.
#[derive(Debug, Drop)]
pub enum Named {
    /// For each edit whether a line names it.
    Edits(List<bool>),
    /// The number of the first wrong line, counted from 1: it names no edit, or one that an earlier
    /// line names.
    Wrong(u32),
}

fn is_blank_line(line: &[u8]) -> bool
    ensures { result ≡ is_blank_line line.now }
{
    line.iter().all(|byte| *byte == b' ' || *byte == b'\t')
}

/// Marks the edit that the line names. Returns `false` if the line is not blank and names no edit,
/// or one that is marked already.
fn mark(places: &TextPlaces<'_>, line: &[u8], chosen: &mut Vec<bool>) -> bool
    requires { AreBelow (length chosen.old.items) places.now }
    ensures whole { length chosen.new.items ≡ length chosen.old.items }
    ensures marked { (net : Network) (edits : Items Edit) (before : Items (Items ℕ)) →
        FindsEdits net edits places.now → AreMarked net edits before chosen.old.items →
        MatchBool result (AreMarked net edits (before ++ line.now ∷ []) chosen.new.items)
        (¬ AreEditLines net edits (before ++ line.now ∷ [])) }
{
    if is_blank_line(line) {
        return true;
    }
    let Some(place) = places.get(line) else {
        return false;
    };
    if chosen[place as usize] {
        return false;
    }
    chosen[place as usize] = true;
    true
}

/// The edits that the lines of a text name, one edit a line. A line ends in LF or CR LF, and lines
/// of spaces and tabs alone are skipped. A carriage return at the end of the text, with no line
/// feed after it, is a byte of its line. It takes time linear in the texts of all edits and in the
/// bytes of the text.
pub fn named_edits(
    alloc: Global,
    net: &Network,
    edits: &List<Edit>,
    text: &[u8],
) -> Result<Named, Memory>
    requires { length text.now < 2 ^ 32 }
    ensures answer { IfOk result (ReadsEdits net.now edits.now text.now) }
    ensures flags { IfOk result (HasOneFlagEach edits.now) }
{
    let texts = edit_texts(alloc, net, edits)?;
    let places = TextPlaces::of(alloc, texts.slice())?;
    let mut chosen = Vec::from_elem(alloc, false, edits.len() as usize)?;
    let mut number = 0;
    for line in text.lines() {
        number += 1;
        if !mark(&places, line, &mut chosen) {
            return Ok(Named::Wrong(number));
        }
    }
    Ok(Named::Edits(List::of(chosen)?))
}
