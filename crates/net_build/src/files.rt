//! Each router file by itself: its lines and its settings.
ghost use Rattle.net_build.specs.Networks.{ReadsConfigs, ReadsFile, ReadsFiles};
ghost use Rattle.std.specs.Prelude.{◌≤◌, ◌+◌, ◌<◌, ◌^◌, length, All};

use arc_base::limits::ROUTER_LIMIT;
use arc_base::{Kind, List, Name};
use ios_config::{Config, ConfigFault, config};
use ios_lines::{LineFault, Lines, cut};
use net_doc::NetFault;
use net_rules::in_file;
use std::alloc::Global;

/// A router file with its lines.
#[derive(Debug, Drop)]
struct ReadFile {
    pub lines: Lines,
    pub config: Config,
}

/// All router files, in their order.
#[derive(Debug, Drop)]
pub struct ReadFiles {
    pub lines: List<Lines>,
    pub configs: List<Config>,
}

/// Reads the router file at this place.
fn read_file(alloc: Global, place: usize, text: &[u8]) -> Result<ReadFile, NetFault>
    requires few { length text.now < 2 ^ 32 }
    requires place { place + 1 < 2 ^ 32 }
    ensures { ReadsFile place text.now result }
{
    let lines = match cut(alloc, text) {
        Ok(lines) => lines,
        Err(LineFault::Orphan(line)) => return Err(in_file(place, line, Kind::OrphanLine)),
        Err(LineFault::OpenBanner(line)) => return Err(in_file(place, line, Kind::BadWord)),
        Err(LineFault::Memory) => return Err(NetFault::Memory),
    };
    match config(alloc, text, &lines) {
        Ok(config) => Ok(ReadFile { lines, config }),
        Err(ConfigFault::Refused(line, kind)) => Err(in_file(place, line, kind)),
        Err(ConfigFault::Memory) => Err(NetFault::Memory),
    }
}

/// Reads all router files, or gives the first refusal.
pub fn read_files(alloc: Global, files: &List<Name>) -> Result<ReadFiles, NetFault>
    requires few { All (λ text. length text < 2 ^ 32) files.now }
    requires count { length files.now ≤ ROUTER_LIMIT }
    ensures { ReadsFiles files.now result }
{
    let mut lines = List::make(alloc);
    let mut configs = List::make(alloc);
    for (place, text) in files.slice().iter().enumerate() {
        let read = read_file(alloc, place, text.bytes())?;
        lines.push(read.lines)?;
        configs.push(read.config)?;
    }
    Ok(ReadFiles { lines, configs })
}

/// Reads the settings of all router files, or gives the first refusal. Each file's lines are
/// dropped before the next file is read.
pub fn read_configs(alloc: Global, files: &List<Name>) -> Result<List<Config>, NetFault>
    requires few { All (λ text. length text < 2 ^ 32) files.now }
    requires count { length files.now ≤ ROUTER_LIMIT }
    ensures { ReadsConfigs files.now result }
{
    let mut configs = List::make(alloc);
    for (place, text) in files.slice().iter().enumerate() {
        let read = read_file(alloc, place, text.bytes())?;
        configs.push(read.config)?;
    }
    Ok(configs)
}
