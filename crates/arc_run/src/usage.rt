//! The line that is printed if the words match no command.
ghost use Rattle.arc_run.specs.Words.{joined_names, usage};
ghost use Rattle.command_words.specs.Commands.{form_of_row};
ghost use Rattle.std.specs.Prelude.{◌≡◌, IfOk, map, string_bytes};

use command_words::{CommandForm, command_forms};
use std::alloc::{AllocError, Global};

/// The names of these commands.
fn names(alloc: Global, forms: &[CommandForm]) -> Result<Vec<&'static str>, AllocError>
    ensures { IfOk result (λ names. names.items ≡ map (λ form. form.name) forms.now) }
{
    forms.iter().map(|form| form.name).collect(alloc)
}

/// The names of these commands, separated by bars.
fn joined_names(alloc: Global, forms: &[CommandForm]) -> Result<String, AllocError>
    ensures { IfOk result (λ text. string_bytes text ≡ joined_names (map form_of_row forms.now)) }
{
    names(alloc, forms)?.join(alloc, "|")
}

/// The usage line, with all commands in the order of their table.
pub fn usage_line(alloc: Global) -> Result<Vec<u8>, AllocError>
    ensures { IfOk result (λ line. line.items ≡ usage) }
{
    let names = joined_names(alloc, command_forms())?;
    let mut line = Vec::from_slice(alloc, b"usage: arcv ")?;
    line.extend_from_slice(names.as_bytes())?;
    line.extend_from_slice(b"\n")?;
    Ok(line)
}
