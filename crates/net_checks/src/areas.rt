//! The OSPF areas that the files name: one in all.
ghost use Rattle.ios_config.specs.Least.{FindsLeast};
ghost use Rattle.net_checks.specs.Growing.{sooner, IsSoonest, line_of_other};
ghost use Rattle.net_rules.specs.Reasons.{TriedAlone};
ghost use Rattle.net_rules.specs.Routers.{RefusesTwoAreas, line_area, face_area, areas_of};
ghost use Rattle.net_rules.specs.Routers.{IsFirstArea, IsOther};
ghost use Rattle.std.specs.Prelude.{◌≡◌, ◌≤◌, ◌<◌, ℕ, length, IfOk, MatchOption, Any};

use arc_base::limits::ROUTER_LIMIT;
use arc_base::{Kind, List, Memory};
use ios_config::{Config, FaceText, Given, lesser};
use ios_words::Command;
use net_doc::NetFault;
use net_rules::{in_file, lines_of};
use std::alloc::Global;

/// The area of a network statement.
fn line_area(line: &Given<Command>) -> Option<Given<u32>>
    ensures { result ≡ line_area line.now }
{
    match &line.value {
        Command::Covers(_, area) => Some(Given {
            value: *area,
            line: line.line,
        }),
        _ => None,
    }
}

/// The area in which a line enables the interface.
fn face_area(face: &FaceText) -> Option<Given<u32>>
    ensures { result ≡ face_area face.now }
{
    match &face.area {
        Some(given) => Some(Given {
            value: given.value.area,
            line: given.line,
        }),
        None => None,
    }
}

/// The areas that the file names, with their lines.
fn areas_of(alloc: Global, config: &Config) -> Result<Vec<Given<u32>>, Memory>
    ensures { IfOk result (λ areas. areas.items ≡ areas_of config.now) }
{
    let of_lines = lines_of(config).iter().filter_map(|line| line_area(line));
    let faces = config.faces.slice().iter();
    let of_faces = faces.filter_map(|face| face_area(face));
    Ok(of_lines.chain(of_faces).collect(alloc)?)
}

/// The area at the lesser line.
fn sooner(first: Option<Given<u32>>, area: Given<u32>) -> Given<u32>
    ensures { result ≡ sooner first area }
{
    match first {
        None => area,
        Some(before) => {
            if area.line < before.line {
                area
            } else {
                before
            }
        }
    }
}

/// The area at the least line.
fn soonest(areas: &[Given<u32>]) -> Option<Given<u32>>
    ensures { IsSoonest areas.now result }
{
    let mut first = None;
    for area in areas {
        first = Some(sooner(first, *area));
    }
    first
}

/// The first area that the files name.
fn first_area(alloc: Global, configs: &List<Config>) -> Result<Option<u32>, Memory>
    ensures { IfOk result (λ found.
        MatchOption found ((area : ℕ) → ¬ IsFirstArea configs.now area) (IsFirstArea configs.now)) }
{
    for config in configs.slice() {
        let areas = areas_of(alloc, config)?;
        match soonest(&areas) {
            Some(first) => return Ok(Some(first.value)),
            None => {}
        }
    }
    Ok(None)
}

/// The line of an area, if it is another than this.
fn line_of_other(area: u32, given: Given<u32>) -> Option<u32>
    ensures { result ≡ line_of_other area given }
{
    if given.value == area {
        return None;
    }
    Some(given.line)
}

/// The least line of an area that is another than this.
fn first_other(area: u32, areas: &[Given<u32>]) -> Option<u32>
    ensures { FindsLeast (λ line. Any (IsOther area line) areas.now) result }
{
    let mut least = None;
    for given in areas {
        least = lesser(least, line_of_other(area, *given));
    }
    least
}

/// Checks whether all OSPF areas are the same.
pub fn try_areas(alloc: Global, configs: &List<Config>) -> Result<(), NetFault>
    requires { length configs.now ≤ ROUTER_LIMIT }
    ensures { TriedAlone (RefusesTwoAreas configs.now) result }
{
    let Some(area) = first_area(alloc, configs)? else {
        return Ok(());
    };
    for (place, config) in configs.slice().iter().enumerate() {
        let areas = areas_of(alloc, config)?;
        if let Some(line) = first_other(area, &areas) {
            return Err(in_file(place, line, Kind::TwoAreas));
        }
    }
    Ok(())
}
