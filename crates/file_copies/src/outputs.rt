//! The files that a command writes beside those that it read.
ghost use Rattle.file_copies.specs.Outputs.{clashes, copies, copy_names, one_copy, wrote_lines};
ghost use Rattle.std.specs.List.{list_any};
ghost use Rattle.std.specs.Prelude.{◌≡◌, ◌<◌, ◌-◌, ◌^◌, ◌++◌, ◌||◌, ◌∷◌, length, IfOk, OnOk};
ghost use Rattle.std.specs.Prelude.{bytes_eq};

use arc_base::{List, Memory, Name};
use std::alloc::Global;

// The two texts, one after the other.
fn joined(alloc: Global, first: &[u8], second: &[u8]) -> Result<Name, Memory>
    ensures { IfOk result (λ name. name ≡ first.now ++ second.now) }
{
    let mut bytes = Vec::from_slice(alloc, first)?;
    bytes.extend_from_slice(second)?;
    Ok(Name::of(bytes))
}

/// The names of the copies of router files.
pub fn copy_names(alloc: Global, suffix: &Name, names: &[Name]) -> Result<Vec<Name>, Memory>
    ensures { IfOk result (λ copies. copies.items ≡ copy_names suffix.now names.now) }
{
    let mut copies = Vec::new(alloc);
    for name in names {
        copies.push(joined(alloc, name.bytes(), suffix.bytes())?)?;
    }
    Ok(copies)
}

/// Whether one of the names is this one.
pub fn holds(names: &[Name], name: &Name) -> bool
    ensures { result ≡ list_any (λ other. bytes_eq other name.now) names.now }
{
    names.iter().any(|other| other.is(name.bytes()))
}

// Whether an input or one of the other outputs has this name.
fn is_taken(document: &Name, routers: &[Name], others: &[Name], name: &Name) -> bool
    ensures { result ≡ (list_any (λ other. bytes_eq other name.now) (document.now ∷ routers.now)
        || list_any (λ other. bytes_eq other name.now) others.now) }
{
    document.is(name.bytes()) || holds(routers, name) || holds(others, name)
}

/// Whether one of the outputs has the name of the document, of a router file, or of another output.
/// It compares each output with each of these.
pub fn clashes(document: &Name, routers: &[Name], outputs: &[Name]) -> bool
    ensures { result ≡ clashes (document.now ∷ routers.now) outputs.now }
{
    let mut rest = outputs;
    while let [name, others @ ..] = rest {
        if is_taken(document, routers, others, name) {
            return true;
        }
        rest = others;
    }
    false
}

/// Adds the copy of a file, if it is changed.
fn push_changed(
    alloc: Global,
    writes: &mut List<(Name, Name)>,
    suffix: &Name,
    name: &Name,
    old: &Name,
    new: &Name,
) -> Result<(), Memory>
    requires { length writes.old < 2 ^ 32 - 1 }
    ensures { OnOk result
        (writes.new ≡ writes.old ++ one_copy suffix.now name.now old.now new.now) }
{
    if new.is(old.bytes()) {
        return Ok(());
    }
    let name = joined(alloc, name.bytes(), suffix.bytes())?;
    writes.push((name, Name::make(alloc, new.bytes())?))?;
    Ok(())
}

/// The copies of the changed files, with their names.
pub fn copies(
    alloc: Global,
    suffix: &Name,
    names: &[Name],
    old: &[Name],
    new: List<Name>,
) -> Result<List<(Name, Name)>, Memory>
    requires old { length old.now ≡ length names.now }
    requires new { length new ≡ length names.now }
    ensures { IfOk result (λ writes. writes ≡ copies suffix.now names.now old.now new) }
{
    let mut writes = List::make(alloc);
    for (at, text) in new.slice().iter().enumerate() {
        push_changed(alloc, &mut writes, suffix, &names[at], &old[at], text)?;
    }
    Ok(writes)
}

/// Appends a line `wrote NAME` for each file that is written.
pub fn push_wrote(text: &mut Vec<u8>, writes: &[(Name, Name)]) -> Result<(), Memory>
    ensures { IfOk result (λ done. text.new.items ≡ text.old.items ++ wrote_lines writes.now) }
{
    for write in writes {
        text.extend_from_slice(b"wrote ")?;
        text.extend_from_slice(write.0.bytes())?;
        text.extend_from_slice(b"\n")?;
    }
    Ok(())
}
