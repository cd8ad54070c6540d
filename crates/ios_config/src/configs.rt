//! The settings of a file, or its first refusal.
ghost use Rattle.ios_config.specs.Configs.{Configures};
ghost use Rattle.ios_config.specs.Seen.{group_list};
ghost use Rattle.ios_config.specs.Texts.{config_of, face_of, list_of, process_of, router_name};
ghost use Rattle.ios_lines.specs.Lines.{AreLinesOf};
ghost use Rattle.std.specs.List.{flat_map};
ghost use Rattle.std.specs.Prelude.{◌≡◌, IfOk};

use crate::commands::{FileCommand, commands};
use crate::faces::face_of;
use crate::fault::ConfigFault;
use crate::lists::list_of;
use crate::parts::groups;
use crate::processes::process_of;
use crate::rising::first_not_rising;
use crate::settings::{Config, FaceText, ListText, ProcessText, Setting};
use crate::twice::first_duplicate;
use arc_base::{Kind, List, Memory, Name};
use ios_lines::Lines;
use ios_words::Command;
use std::alloc::Global;

/// The name of the router, with its line.
fn router_name(alloc: Global, commands: &[FileCommand]) -> Result<Option<Setting>, Memory>
    ensures { IfOk result (λ found. found ≡ router_name commands.now) }
{
    let mut found = None;
    for c in commands {
        match &c.command {
            Command::Hostname(name) => {
                found = Some(Setting {
                    name: Name::make(alloc, name.bytes())?,
                    line: c.line,
                });
            }
            _ => {}
        }
    }
    Ok(found)
}

/// The interfaces among the groups.
fn faces(alloc: Global, groups: &[Vec<&FileCommand>]) -> Result<List<FaceText>, Memory>
    ensures { IfOk result (λ found. found ≡ flat_map face_of (group_list groups.now)) }
{
    let mut found = Vec::new(alloc);
    for group in groups {
        match face_of(alloc, group)? {
            Some(face) => found.push(face)?,
            None => {}
        }
    }
    List::of(found)
}

/// The lists among the groups.
fn lists(alloc: Global, groups: &[Vec<&FileCommand>]) -> Result<List<ListText>, Memory>
    ensures { IfOk result (λ found. found ≡ flat_map list_of (group_list groups.now)) }
{
    let mut found = Vec::new(alloc);
    for group in groups {
        match list_of(alloc, group)? {
            Some(list) => found.push(list)?,
            None => {}
        }
    }
    List::of(found)
}

/// The processes among the groups.
fn processes(alloc: Global, groups: &[Vec<&FileCommand>]) -> Result<List<ProcessText>, Memory>
    ensures { IfOk result (λ found. found ≡ flat_map process_of (group_list groups.now)) }
{
    let mut found = Vec::new(alloc);
    for group in groups {
        match process_of(alloc, group)? {
            Some(process) => found.push(process)?,
            None => {}
        }
    }
    List::of(found)
}

/// What the commands of a file set.
fn config_of(alloc: Global, commands: &[FileCommand]) -> Result<Config, Memory>
    ensures { IfOk result (λ config. config ≡ config_of commands.now) }
{
    let groups = groups(alloc, commands)?;
    Ok(Config {
        hostname: router_name(alloc, commands)?,
        faces: faces(alloc, &groups)?,
        lists: lists(alloc, &groups)?,
        process: processes(alloc, &groups)?,
    })
}

/// The settings of a router file, given its lines; or the first refusal. These come in this order:
/// the first line that is unknown or has a bad word or wildcard, the first block or list that
/// occurs twice, and the first entry of a list whose number does not rise.
pub fn config(alloc: Global, text: &[u8], lines: &Lines) -> Result<Config, ConfigFault>
    requires { AreLinesOf text.now lines.now }
    ensures { Configures text.now lines.now result }
{
    let commands = commands(alloc, text, lines)?;
    match first_duplicate(alloc, &commands)? {
        Some(line) => return Err(ConfigFault::Refused(line, Kind::DuplicateBlock)),
        None => {}
    }
    let config = config_of(alloc, &commands)?;
    match first_not_rising(config.lists.slice()) {
        Some(line) => Err(ConfigFault::Refused(line, Kind::SequenceNotRising)),
        None => Ok(config),
    }
}
