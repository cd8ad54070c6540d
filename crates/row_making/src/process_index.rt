//! What the process of a file says, gathered once for all interfaces of the file: no look-up goes
//! through its lines again.
ghost use Rattle.arc_base.specs.declared.prefix.Prefix.{Prefix};
ghost use Rattle.ios_words.specs.declared.commands.Command.TheVariants as commands;
ghost use Rattle.net_rules.specs.Prefixes.{HasPrefix};
ghost use Rattle.net_rules.specs.Settings.{last_said, says_passive, says_reference, reference_of};
ghost use Rattle.row_making.specs.Indexes.{network_prefix, by_face, said_of, IsIndex};
ghost use Rattle.std.specs.Option.{option_copied, option_or};
ghost use Rattle.std.specs.Prelude.{◌≡◌, ◌↔◌, ℕ, List, Some, Any, IfOk, IsTrue};

use arc_base::{Memory, Name, Prefix};
use indexmap::{IndexMap, IndexSet};
use ios_config::{Config, Given};
use ios_words::Command;
use net_model::Protocol;
use net_rules::{DEFAULT_REFERENCE, Prefixes, add_prefix, has_prefix, has_prefix_of, lines_of};
use std::alloc::Global;

/// What the lines of a process say of passive interfaces.
#[derive(Drop)]
pub struct PassiveIndex<'a> {
    /// What the last line about all interfaces says.
    pub all: Option<bool>,
    /// What later lines say of an interface by its name.
    pub named: IndexMap<&'a [u8], bool>,
}

/// What the process of a file says.
#[derive(Drop)]
pub struct ProcessIndex<'a> {
    pub config: &'a Config,
    /// The reference bandwidth, in kbit/s.
    pub reference: u64,
    /// The prefixes of the network statements of BGP.
    pub told: Prefixes,
    /// The prefixes of the network statements of OSPF.
    pub covered: Prefixes,
    pub passive: PassiveIndex<'a>,
}

/// The prefix of a network statement of the protocol.
fn network_prefix(protocol: Protocol, command: &Command) -> Option<&Prefix>
    ensures { option_copied result ≡ network_prefix protocol command.now }
{
    match protocol {
        Protocol::Ospf => match command {
            Command::Covers(p, _) => Some(p),
            _ => None,
        },
        Protocol::Bgp => match command {
            Command::Tells(p) => Some(p),
            _ => None,
        },
    }
}

/// The prefixes of the network statements of the protocol.
fn prefixes(alloc: Global, protocol: Protocol, lines: &[Given<Command>]) -> Result<Prefixes, Memory>
    ensures { IfOk result (λ prefixes. (p : Prefix) → HasPrefix prefixes.keys p ↔
        Any (λ g. network_prefix protocol g.value ≡ Some p) lines.now) }
{
    let mut prefixes = IndexSet::new(alloc);
    for line in lines {
        if let Some(p) = network_prefix(protocol, &line.value) {
            add_prefix(&mut prefixes, p)?;
        }
    }
    Ok(prefixes)
}

/// Notes whether the interface of this name, or else each, is passive.
fn note_passive<'a>(
    passive: &mut PassiveIndex<'a>,
    on: bool,
    face: Option<&'a Name>,
) -> Result<(), Memory>
    ensures { IfOk result (λ done. (name : List ℕ) → said_of passive.new name
        ≡ option_or (by_face name on (option_copied face.entry)) (said_of passive.old name)) }
{
    match face {
        Some(face) => {
            passive.named.insert(face.bytes(), on)?;
            Ok(())
        }
        None => {
            passive.all = Some(on);
            passive.named.clear();
            Ok(())
        }
    }
}

/// Notes what the command sets for passive interfaces, in place of what was set before.
fn add_passive<'a>(passive: &mut PassiveIndex<'a>, command: &'a Command) -> Result<(), Memory>
    ensures { IfOk result (λ done. (name : List ℕ) → said_of passive.new name
        ≡ option_or (says_passive name command.now) (said_of passive.old name)) }
{
    match command {
        Command::Passive(on, face) => note_passive(passive, *on, face.as_ref()),
        _ => Ok(()),
    }
}

fn passive<'a>(alloc: Global, lines: &'a [Given<Command>]) -> Result<PassiveIndex<'a>, Memory>
    ensures { IfOk result (λ passive. (name : List ℕ) →
        said_of passive name ≡ last_said (says_passive name) lines.now) }
{
    let mut passive = PassiveIndex {
        all: None,
        named: IndexMap::new(alloc),
    };
    for line in lines {
        add_passive(&mut passive, &line.value)?;
    }
    Ok(passive)
}

fn says_reference(command: &Command) -> Option<u32>
    ensures { result ≡ says_reference command.now }
{
    match command {
        Command::Reference(m) => Some(*m),
        _ => None,
    }
}

/// The reference bandwidth of the process, in kbit/s.
pub fn reference(lines: &[Given<Command>]) -> u64
    ensures { result ≡ reference_of lines.now }
{
    let mut last = None;
    for line in lines {
        last = says_reference(&line.value).or(last);
    }
    u64::from(last.unwrap_or(DEFAULT_REFERENCE)) * 1000
}

/// The index of the file's process.
pub fn index_process(alloc: Global, config: &Config) -> Result<ProcessIndex<'_>, Memory>
    ensures config { IfOk result (λ index. index.config.now ≡ config.now) }
    ensures index { IfOk result IsIndex }
{
    let lines = lines_of(config);
    Ok(ProcessIndex {
        config,
        reference: reference(lines),
        told: prefixes(alloc, Protocol::Bgp, lines)?,
        covered: prefixes(alloc, Protocol::Ospf, lines)?,
        passive: passive(alloc, lines)?,
    })
}

impl ProcessIndex<'_> {
    ghost use Rattle.net_rules.specs.Settings.{lines_of, is_passive, CommandCovers};

    /// Whether a network statement of BGP names just this prefix.
    pub fn is_told(&self, p: &Prefix) -> bool
        requires { IsIndex self.now }
        ensures { IsTrue result ↔
            Any (λ g. g.value ≡ commands.Tells p.now) (lines_of self.now.config.now) }
    {
        has_prefix(&self.told, p)
    }

    /// Whether a network statement of OSPF covers the address.
    pub fn is_covered(&self, address: u32) -> bool
        requires { IsIndex self.now }
        ensures { IsTrue result ↔
            Any (λ g. CommandCovers address g.value) (lines_of self.now.config.now) }
    {
        has_prefix_of(&self.covered, address)
    }

    /// What the last line about the interface of this name, or about all, says.
    fn last_passive(&self, name: &[u8]) -> Option<bool>
        requires { IsIndex self.now }
        ensures { result ≡ last_said (says_passive name.now) (lines_of self.now.config.now) }
    {
        self.passive.named.get(&name).copied().or(self.passive.all)
    }

    /// Whether the interface of this name is passive.
    pub fn is_passive(&self, protocol: Protocol, name: &[u8]) -> bool
        requires { IsIndex self.now }
        ensures { result ≡ is_passive protocol (lines_of self.now.config.now) name.now }
    {
        match protocol {
            Protocol::Ospf => self.last_passive(name).unwrap_or(false),
            Protocol::Bgp => false,
        }
    }
}
