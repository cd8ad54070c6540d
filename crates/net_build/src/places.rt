//! The lines that the parts of the network come from, file by file.
ghost use Rattle.net_build.specs.Places.{face_place, list_place, places_of};
ghost use Rattle.net_rules.specs.Settings.{process_of};
ghost use Rattle.std.specs.Prelude.{◌≡◌, IfOk, map, unwrap_or, option_map};

use crate::built::{FacePlace, ListPlace, Places};
use arc_base::{List, Memory, Name};
use ios_config::{Config, FaceText, ListText};
use net_rules::process_of;
use std::alloc::Global;

fn face_places(alloc: Global, faces: &List<FaceText>) -> Result<List<FacePlace>, Memory>
    ensures { IfOk result (λ places. places ≡ map face_place faces.now) }
{
    let mut places = List::make(alloc);
    for face in faces.slice() {
        places.push(FacePlace {
            head: face.head,
            last: face.last,
        })?;
    }
    Ok(places)
}

fn entry_lines(alloc: Global, list: &ListText) -> Result<List<u32>, Memory>
    ensures { IfOk result (λ lines. lines ≡ map (λ g. g.line) list.now.entries) }
{
    let mut lines = List::make(alloc);
    for given in list.entries.slice() {
        lines.push(given.line)?;
    }
    Ok(lines)
}

fn list_place(alloc: Global, list: &ListText) -> Result<ListPlace, Memory>
    ensures { IfOk result (λ place. place ≡ list_place list.now) }
{
    Ok(ListPlace {
        name: Name::make(alloc, list.name.bytes())?,
        form: list.form,
        numbered: list.numbered,
        entries: entry_lines(alloc, list)?,
    })
}

fn list_places(alloc: Global, lists: &List<ListText>) -> Result<List<ListPlace>, Memory>
    ensures { IfOk result (λ places. places ≡ map list_place lists.now) }
{
    let mut places = List::make(alloc);
    for list in lists.slice() {
        places.push(list_place(alloc, list)?)?;
    }
    Ok(places)
}

fn head_of(config: &Config) -> u32
    ensures { result ≡ unwrap_or (option_map (λ p. p.head) (process_of config.now)) 0 }
{
    match process_of(config) {
        Some(process) => process.head,
        None => 0,
    }
}

fn last_of(config: &Config) -> u32
    ensures { result ≡ unwrap_or (option_map (λ p. p.last) (process_of config.now)) 0 }
{
    match process_of(config) {
        Some(process) => process.last,
        None => 0,
    }
}

/// The places of one file.
fn places_of(alloc: Global, config: &Config) -> Result<Places, Memory>
    ensures { IfOk result (λ places. places ≡ places_of config.now) }
{
    Ok(Places {
        process: head_of(config),
        process_last: last_of(config),
        faces: face_places(alloc, &config.faces)?,
        lists: list_places(alloc, &config.lists)?,
    })
}

/// The places of all files.
pub fn all_places(alloc: Global, configs: &List<Config>) -> Result<List<Places>, Memory>
    ensures { IfOk result (λ places. places ≡ map places_of configs.now) }
{
    let mut places = List::make(alloc);
    for config in configs.slice() {
        places.push(places_of(alloc, config)?)?;
    }
    Ok(places)
}
