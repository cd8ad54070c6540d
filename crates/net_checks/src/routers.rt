//! What is asked of each router by itself: a name, one process, all of one protocol, and an AS of
//! its own.
ghost use Rattle.ios_config.specs.Least.{FindsLeast};
ghost use Rattle.net_checks.specs.Growing.{AddsGiven};
ghost use Rattle.net_rules.specs.Reasons.{TriedAlone};
ghost use Rattle.net_rules.specs.Routers.{RefusesHostname, RefusesSameAs, as_of_process, as_of};
ghost use Rattle.net_rules.specs.Routers.{RefusesProtocol, protocol_of, protocol_of_kind};
ghost use Rattle.net_rules.specs.Routers.{NamesOtherProcess, RunsOther, MixesProcesses};
ghost use Rattle.net_rules.specs.Settings.{process_of};
ghost use Rattle.std.specs.Prelude.{◌≡◌, ◌≤◌, ◌+◌, ◌<◌, [], ◌∷◌, ◌++◌, length, IfOk, MatchOption};
ghost use Rattle.std.specs.Prelude.{Contains, IsSomeAnd, map, Any, slice_get};

use arc_base::limits::ROUTER_LIMIT;
use arc_base::{Kind, List, Memory};
use indexmap::IndexSet;
use ios_config::{Config, FaceText, Given, ProcessKind, ProcessText, lesser};
use net_doc::NetFault;
use net_model::Protocol;
use net_rules::{in_file, process_of, protocol_of, protocol_of_kind};
use std::alloc::Global;

/// Adds the name of a router, or names the line that refuses it.
fn add_hostname<'a>(
    names: &mut IndexSet<&'a [u8]>,
    config: &'a Config,
) -> Result<Option<u32>, Memory>
    ensures { IfOk result (λ found. MatchOption found
        (IsSomeAnd config.now.hostname (λ s. (¬ Contains (map (λ n. n.now) names.old.keys) s.name)
        × (map (λ n. n.now) names.new.keys ≡ map (λ n. n.now) names.old.keys ++ s.name ∷ [])))
        (λ line. MatchOption config.now.hostname (line ≡ 0) (λ s.
        (line ≡ s.line) × Contains (map (λ n. n.now) names.old.keys) s.name))) }
{
    match &config.hostname {
        None => Ok(Some(0)),
        Some(given) => {
            let (_place, new) = names.insert_full(given.name.bytes())?;
            if new {
                return Ok(None);
            }
            Ok(Some(given.line))
        }
    }
}

/// Checks whether each router has a name of its own.
pub fn try_hostnames(alloc: Global, configs: &List<Config>) -> Result<(), NetFault>
    requires { length configs.now ≤ ROUTER_LIMIT }
    ensures { TriedAlone (RefusesHostname configs.now) result }
{
    let mut names = IndexSet::new(alloc);
    for (place, config) in configs.slice().iter().enumerate() {
        if let Some(line) = add_hostname(&mut names, config)? {
            return Err(in_file(place, line, Kind::Hostname));
        }
    }
    Ok(())
}

/// The AS of a BGP process, with the line at which its block begins.
fn as_of_process(process: &ProcessText) -> Option<Given<u32>>
    ensures { result ≡ as_of_process process.now.kind process.now }
{
    match process.kind {
        ProcessKind::Ospf => None,
        ProcessKind::Bgp => Some(Given {
            value: process.number,
            line: process.head,
        }),
    }
}

/// The AS of the file's process.
fn as_of(config: &Config) -> Option<Given<u32>>
    ensures { result ≡ as_of config.now }
{
    as_of_process(process_of(config)?)
}

/// Checks whether each router has an AS of its own.
pub fn try_as_numbers(alloc: Global, configs: &List<Config>) -> Result<(), NetFault>
    requires { length configs.now ≤ ROUTER_LIMIT }
    ensures { TriedAlone (RefusesSameAs configs.now) result }
{
    let mut numbers = IndexSet::new(alloc);
    for (place, config) in configs.slice().iter().enumerate() {
        if let Some(line) = add_given(&mut numbers, as_of(config))? {
            return Err(in_file(place, line, Kind::SameAs));
        }
    }
    Ok(())
}

fn second_head(config: &Config) -> Option<u32>
    ensures { FindsLeast
        (λ line. IsSomeAnd (slice_get config.now.process 1) (λ second. line ≡ second.head)) result }
{
    Some(config.process.get(1)?.head)
}

fn names_other(process: &ProcessText, face: &FaceText) -> Option<u32>
    ensures { FindsLeast (λ line. NamesOtherProcess process.now line face.now) result }
{
    let given = face.area.as_ref()?;
    if given.value.process == process.number {
        return None;
    }
    Some(given.line)
}

/// The first line that enables an interface in a process of another number.
fn other_process(process: &ProcessText, faces: &List<FaceText>) -> Option<u32>
    ensures { FindsLeast (λ line. Any (NamesOtherProcess process.now line) faces.now) result }
{
    let mut line = None;
    for face in faces.slice() {
        line = lesser(line, names_other(process, face));
    }
    line
}

fn runs_other(protocol: Protocol, process: &ProcessText) -> Option<u32>
    ensures { FindsLeast (λ line. RunsOther protocol line process.now) result }
{
    if protocol_of_kind(process.kind) == protocol {
        return None;
    }
    Some(process.head)
}

/// The first head of a process of another protocol.
fn other_protocol(protocol: Protocol, processes: &List<ProcessText>) -> Option<u32>
    ensures { FindsLeast (λ line. Any (RunsOther protocol line) processes.now) result }
{
    let mut line = None;
    for process in processes.slice() {
        line = lesser(line, runs_other(protocol, process));
    }
    line
}

fn mixes(protocol: Protocol, config: &Config, process: &ProcessText) -> Option<u32>
    ensures { FindsLeast (MixesProcesses protocol config.now process.now) result }
{
    let second = second_head(config);
    let other = other_process(process, &config.faces);
    let protocols = other_protocol(protocol, &config.process);
    lesser(second, lesser(other, protocols))
}

/// The first line that shows that the file has not one process of the protocol, or 0 where it has
/// none.
fn has_no_own_process(protocol: Protocol, config: &Config) -> Option<u32>
    ensures { FindsLeast (λ line. MatchOption (process_of config.now) (line ≡ 0) (λ process.
        MixesProcesses protocol config.now process line)) result }
{
    match process_of(config) {
        None => Some(0),
        Some(process) => mixes(protocol, config, process),
    }
}

/// Checks whether each router has one process, and all of one protocol.
pub fn try_processes(configs: &List<Config>) -> Result<(), NetFault>
    requires { length configs.now ≤ ROUTER_LIMIT }
    ensures { TriedAlone (RefusesProtocol configs.now) result }
{
    let protocol = protocol_of(configs);
    for (place, config) in configs.slice().iter().enumerate() {
        if let Some(line) = has_no_own_process(protocol, config) {
            return Err(in_file(place, line, Kind::Protocol));
        }
    }
    Ok(())
}

/// Adds the number of a file, if it gives one, or names the line that gives a number which is
/// there.
pub fn add_given(
    numbers: &mut IndexSet<u32>,
    number: Option<Given<u32>>,
) -> Result<Option<u32>, Memory>
    ensures { IfOk result (AddsGiven numbers.old.keys numbers.new.keys number) }
{
    let Some(given) = number else {
        return Ok(None);
    };
    let (_place, new) = numbers.insert_full(given.value)?;
    if new {
        return Ok(None);
    }
    Ok(Some(given.line))
}
