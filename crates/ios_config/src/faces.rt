//! The interfaces of a file.
ghost use Rattle.ios_config.specs.Seen.{commands_seen};
ghost use Rattle.ios_config.specs.Texts.{face_text, face_of};
ghost use Rattle.ios_config.specs.Updates.{SaysMore};
ghost use Rattle.std.specs.Prelude.{◌≡◌, [], IfOk, OnOk, option_to_list};

use crate::commands::FileCommand;
use crate::settings::{FaceText, Given};
use arc_base::{Memory, Name};
use ios_words::Command;
use std::alloc::Global;

/// The interface whose block has no command yet.
fn fresh(alloc: Global, name: &Name, head: u32) -> Result<FaceText, Memory>
    ensures { IfOk result (λ face. face ≡ face_text name.now head []) }
{
    Ok(FaceText {
        name: Name::make(alloc, name.bytes())?,
        head,
        last: 0,
        addr: None,
        mask_len: None,
        shut: None,
        bandwidth: None,
        cost: None,
        area: None,
        point: None,
        list_in: None,
        list_out: None,
    })
}

/// Sets what one more command of the block says.
fn set(alloc: Global, face: &mut FaceText, c: &FileCommand) -> Result<(), Memory>
    ensures { OnOk result (SaysMore c.now face.old face.new) }
{
    let line = c.line;
    match &c.command {
        Command::Address(addr, len) => {
            face.addr = Some(Given { value: *addr, line });
            face.mask_len = Some(Given { value: *len, line });
        }
        Command::NoAddress => {
            face.addr = None;
            face.mask_len = None;
        }
        Command::Shutdown(down) => face.shut = Some(Given { value: *down, line }),
        Command::Bandwidth(kilobits) => face.bandwidth = Some(Given {
            value: *kilobits,
            line,
        }),
        Command::Cost(cost) => face.cost = Some(Given { value: *cost, line }),
        Command::Area(area) => face.area = Some(Given { value: *area, line }),
        Command::Point(point) => face.point = Some(Given {
            value: *point,
            line,
        }),
        Command::Group(name, true) => {
            let value = Name::make(alloc, name.bytes())?;
            face.list_in = Some(Given { value, line });
        }
        Command::Group(name, false) => {
            let value = Name::make(alloc, name.bytes())?;
            face.list_out = Some(Given { value, line });
        }
        _ => {}
    }
    face.last = line;
    Ok(())
}

/// The interface of this name and the commands of its block.
fn face_text(
    alloc: Global,
    name: &Name,
    head: u32,
    block: &[&FileCommand],
) -> Result<FaceText, Memory>
    ensures { IfOk result (λ face. face ≡ face_text name.now head (commands_seen block.now)) }
{
    let mut face = fresh(alloc, name, head)?;
    for command in block {
        set(alloc, &mut face, command)?;
    }
    Ok(face)
}

/// The interface that a group of commands is, if it is one.
pub fn face_of(alloc: Global, group: &[&FileCommand]) -> Result<Option<FaceText>, Memory>
    ensures { IfOk result (λ found. option_to_list found ≡ face_of (commands_seen group.now)) }
{
    match group {
        [head, ..] => match &head.command {
            Command::Interface(name) => Ok(Some(face_text(alloc, name, head.line, group)?)),
            _ => Ok(None),
        },
        [] => Ok(None),
    }
}
