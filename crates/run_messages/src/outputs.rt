//! Which files a command reads and writes, and why the names of those that it writes are refused.

use crate::showing::Shown;
use arc_base::{Memory, Name};
use command_words::Command;
use file_copies::{copy_names, holds};
use std::alloc::Global;

/// The document that a command reads, if it reads one.
pub fn document_of(command: &Command) -> Option<&Name> {
    match command {
        Command::Verify(document) | Command::Check(document, _) => Some(document),
        Command::Trace(words) => Some(&words.document),
        Command::Repair(words) => Some(&words.document),
        Command::Apply(words) => Some(&words.document),
        Command::Nodes(words) => Some(&words.document),
        Command::Prefers(words) => Some(&words.document),
        Command::Recheck(words) => Some(&words.document),
        Command::Solve(_) | Command::Lrat(_, _) | Command::Generate(_) => None,
    }
}

/// The names of the files that a command over these router files may write.
fn outputs(alloc: Global, command: &Command, routers: &[Name]) -> Result<Vec<Name>, Memory> {
    let (suffix, proof) = match command {
        Command::Repair(words) => (Some(&words.suffix), Some(&words.proof)),
        Command::Apply(words) => (Some(&words.suffix), None),
        Command::Solve(words) => (None, Some(&words.proof)),
        _ => (None, None),
    };
    let mut names = match suffix {
        Some(suffix) => copy_names(alloc, suffix, routers)?,
        None => Vec::new(alloc),
    };
    if let Some(proof) = proof {
        names.push(Name::make(alloc, proof.bytes())?)?;
    }
    Ok(names)
}

/// Whether a command over these router files reads a file of this name.
fn is_read(command: &Command, routers: &[Name], name: &Name) -> bool {
    let other = match command {
        Command::Apply(words) => Some(&words.edits),
        Command::Solve(words) => Some(&words.formula),
        _ => None,
    };
    let mut named = [document_of(command), other].into_iter().flatten();
    named.any(|named| named.is(name.bytes())) || holds(routers, name)
}

/// Which output of a command over these router files is refused for its name, and why.
pub fn clash(alloc: Global, command: &Command, routers: &[Name]) -> Option<String> {
    let outputs = outputs(alloc, command, routers).ok()?;
    if let Some(name) = outputs.iter().find(|name| is_read(command, routers, name)) {
        let name = Shown(name.bytes());
        return format!(in alloc; "{name} is read by this command, and would be written over").ok();
    }
    let is_twice = |name: &Name| outputs
        .iter()
        .filter(|other| other.is(name.bytes()))
        .count()
        > 1;
    let name = Shown(outputs.iter().find(|name| is_twice(name))?.bytes());
    format!(in alloc; "{name} would be written twice").ok()
}
