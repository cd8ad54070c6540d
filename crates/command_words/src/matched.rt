//! The readers of the commands, one for each row of the table, over what `clap` found.
ghost use Rattle.arc_base.specs.PrefixText.{prefix_of};
ghost use Rattle.clap.specs.Words.{first_of, found_of, rows_of};
ghost use Rattle.std.specs.Prelude.{◌≡◌, ◌≤◌, ◌<◌, ◌^◌, IfOk, MatchOption, MatchResult, None, Some};
ghost use Rattle.std.specs.Prelude.{codes, option_and_then};
ghost use Rattle.std.specs.Result.{result_ok};
ghost use Rattle.command_words.specs.Commands.{apply_by, check_by, command_by, generate_by};
ghost use Rattle.command_words.specs.Commands.{links_or_none, lrat_by, nodes_by, number_or};
ghost use Rattle.command_words.specs.Commands.{prefers_by, recheck_by, repair_by, solve_by};
ghost use Rattle.command_words.specs.Commands.{trace_by, verify_by};
ghost use Rattle.command_words.specs.Values.{number_within, router_names};

use crate::commands::{
    ApplyWords, Command, GenerateWords, NodesWords, PrefersWords, RecheckWords, RepairWords,
    SolveWords, TraceWords,
};
use crate::forms::CommandKind;
use crate::values::{self, Fault};
use arc_base::limits::{
    CONFLICT_LIMIT, DEFAULT_CONFLICTS, DEFAULT_PRICE, FAILURE_LIMIT, FEWEST_GENERATED,
    MOST_GENERATED, PRICE_LIMIT,
};
use arc_base::{List, Memory, Name, Prefix};
use clap::ArgMatches;
use std::alloc::Global;

/// A value that is wrong: the name of its place or option, and what is wrong with it.
#[derive(Clone, Copy, Debug)]
pub struct WrongValue {
    pub name: &'static str,
    pub fault: Fault,
}

/// What is read, unless a value is wrong.
pub type Read<T> = Result<T, WrongValue>;

/// The value that is read, and else the end of the reading.
macro_rules! read {
    ($read:expr) => {
        match $read {
            Ok(value) => value,
            Err(wrong) => return Ok(Err(wrong)),
        }
    };
}

/// The value that is read with memory, and else the end of the reading.
macro_rules! made {
    ($read:expr) => {
        match $read {
            Ok(Ok(value)) => value,
            Ok(Err(wrong)) => return Ok(Err(wrong)),
            Err(memory) => return Err(memory),
        }
    };
}

/// The value of an argument.
pub fn value<'a>(found: &ArgMatches<'a>, name: &str) -> Option<&'a str>
    ensures { MatchOption result (first_of name.now (rows_of (found_of found.now)) ≡ None) (λ text.
        first_of name.now (rows_of (found_of found.now)) ≡ Some text.now) }
{
    found.get_str(name)
}

/// The text of an argument.
fn text<'a>(found: &ArgMatches<'a>, name: &'static str) -> Read<&'a str>
    ensures { MatchResult result
        (λ text. first_of name.now (rows_of (found_of found.now)) ≡ Some text.now)
        (λ wrong. first_of name.now (rows_of (found_of found.now)) ≡ None) }
{
    match value(found, name) {
        Some(text) => Ok(text),
        None => Err(WrongValue {
            name,
            fault: Fault::Missing,
        }),
    }
}

/// An argument that is a prefix.
fn prefix(found: &ArgMatches<'_>, name: &'static str) -> Read<Prefix>
    ensures { result_ok result
        ≡ option_and_then prefix_of (first_of name.now (rows_of (found_of found.now))) }
{
    let word = text(found, name)?;
    match values::prefix(word.as_bytes()) {
        Ok(prefix) => Ok(prefix),
        Err(fault) => Err(WrongValue { name, fault }),
    }
}

/// An argument that is a number in a range.
fn number(found: &ArgMatches<'_>, name: &'static str, least: u64, most: u64) -> Read<u64>
    requires { most < 2 ^ 63 }
    ensures number { result_ok result ≡ option_and_then (number_within least most)
        (first_of name.now (rows_of (found_of found.now))) }
    ensures most { IfOk result (λ number. number ≤ most) }
{
    let word = text(found, name)?;
    match values::number(word.as_bytes(), least, most) {
        Ok(number) => Ok(number),
        Err(fault) => Err(WrongValue { name, fault }),
    }
}

/// The number that an option gives, and `usual` where it is left out.
fn number_or(
    found: &ArgMatches<'_>,
    name: &'static str,
    usual: u64,
    least: u64,
    most: u64,
) -> Read<u64>
    requires most { most < 2 ^ 63 }
    requires usual { usual ≤ most }
    ensures number { result_ok result ≡ number_or usual least most
        (first_of name.now (rows_of (found_of found.now))) }
    ensures most { IfOk result (λ number. number ≤ most) }
{
    let Some(word) = value(found, name) else {
        return Ok(usual);
    };
    match values::number(word.as_bytes(), least, most) {
        Ok(number) => Ok(number),
        Err(fault) => Err(WrongValue { name, fault }),
    }
}

/// How many conflicts a search may learn from.
fn conflicts(found: &ArgMatches<'_>) -> Read<u64>
    ensures { result_ok result ≡ number_or DEFAULT_CONFLICTS 1 CONFLICT_LIMIT
        (first_of (codes "conflicts") (rows_of (found_of found.now))) }
{
    number_or(found, "conflicts", DEFAULT_CONFLICTS, 1, CONFLICT_LIMIT)
}

/// The highest price of a repair.
fn bound(found: &ArgMatches<'_>) -> Read<u64>
    ensures number { result_ok result ≡ number_or DEFAULT_PRICE 0 PRICE_LIMIT
        (first_of (codes "max-price") (rows_of (found_of found.now))) }
    ensures most { IfOk result (λ number. number ≤ PRICE_LIMIT) }
{
    let usual = u64::from(DEFAULT_PRICE);
    number_or(found, "max-price", usual, 0, u64::from(PRICE_LIMIT))
}

/// The links that an option names, and none where it is left out.
fn links_or_none(
    alloc: Global,
    found: &ArgMatches<'_>,
    name: &'static str,
) -> Result<Read<List<u32>>, Memory>
    ensures { IfOk result (λ links. result_ok links
        ≡ links_or_none (first_of name.now (rows_of (found_of found.now)))) }
{
    let Some(word) = value(found, name) else {
        return Ok(Ok(List::make(alloc)));
    };
    match values::links(alloc, word.as_bytes()) {
        Ok(Ok(links)) => Ok(Ok(links)),
        Ok(Err(fault)) => Ok(Err(WrongValue { name, fault })),
        Err(memory) => Err(memory),
    }
}

/// An argument that is names of routers.
fn routers(
    alloc: Global,
    found: &ArgMatches<'_>,
    name: &'static str,
) -> Result<Read<List<Name>>, Memory>
    ensures { IfOk result (λ names. result_ok names
        ≡ option_and_then router_names (first_of name.now (rows_of (found_of found.now)))) }
{
    let word = read!(text(found, name));
    match values::routers(alloc, word.as_bytes()) {
        Ok(Ok(names)) => Ok(Ok(names)),
        Ok(Err(fault)) => Ok(Err(WrongValue { name, fault })),
        Err(memory) => Err(memory),
    }
}

fn verify(alloc: Global, found: &ArgMatches<'_>) -> Result<Read<Command>, Memory>
    ensures { IfOk result (λ read. result_ok read
        ≡ verify_by (λ name. first_of name (rows_of (found_of found.now)))) }
{
    let document = read!(text(found, "DOC"));
    let document = Name::make(alloc, document.as_bytes())?;
    Ok(Ok(Command::Verify(document)))
}

fn trace(alloc: Global, found: &ArgMatches<'_>) -> Result<Read<Command>, Memory>
    ensures { IfOk result (λ read. result_ok read
        ≡ trace_by (λ name. first_of name (rows_of (found_of found.now)))) }
{
    let document = read!(text(found, "DOC"));
    let from = read!(prefix(found, "FROM"));
    let to = read!(prefix(found, "TO"));
    let down = made!(links_or_none(alloc, found, "down"));
    let document = Name::make(alloc, document.as_bytes())?;
    Ok(Ok(Command::Trace(TraceWords {
        document,
        from,
        to,
        down,
    })))
}

fn repair(alloc: Global, found: &ArgMatches<'_>) -> Result<Read<Command>, Memory>
    ensures { IfOk result (λ read. result_ok read
        ≡ repair_by (λ name. first_of name (rows_of (found_of found.now)))) }
{
    let document = read!(text(found, "DOC"));
    let suffix = read!(text(found, "out"));
    let proof = read!(text(found, "proof"));
    let bound = read!(bound(found));
    let conflicts = read!(conflicts(found));
    Ok(Ok(Command::Repair(RepairWords {
        document: Name::make(alloc, document.as_bytes())?,
        suffix: Name::make(alloc, suffix.as_bytes())?,
        proof: Name::make(alloc, proof.as_bytes())?,
        bound: bound as u32,
        conflicts,
    })))
}

fn check(alloc: Global, found: &ArgMatches<'_>) -> Result<Read<Command>, Memory>
    ensures { IfOk result (λ read. result_ok read
        ≡ check_by (λ name. first_of name (rows_of (found_of found.now)))) }
{
    let document = read!(text(found, "DOC"));
    let certificate = read!(text(found, "CERT"));
    let document = Name::make(alloc, document.as_bytes())?;
    let certificate = Name::make(alloc, certificate.as_bytes())?;
    Ok(Ok(Command::Check(document, certificate)))
}

fn apply(alloc: Global, found: &ArgMatches<'_>) -> Result<Read<Command>, Memory>
    ensures { IfOk result (λ read. result_ok read
        ≡ apply_by (λ name. first_of name (rows_of (found_of found.now)))) }
{
    let document = read!(text(found, "DOC"));
    let edits = read!(text(found, "EDITS"));
    let suffix = read!(text(found, "out"));
    Ok(Ok(Command::Apply(ApplyWords {
        document: Name::make(alloc, document.as_bytes())?,
        edits: Name::make(alloc, edits.as_bytes())?,
        suffix: Name::make(alloc, suffix.as_bytes())?,
    })))
}

fn solve(alloc: Global, found: &ArgMatches<'_>) -> Result<Read<Command>, Memory>
    ensures { IfOk result (λ read. result_ok read
        ≡ solve_by (λ name. first_of name (rows_of (found_of found.now)))) }
{
    let formula = read!(text(found, "CNF"));
    let proof = read!(text(found, "proof"));
    let conflicts = read!(conflicts(found));
    Ok(Ok(Command::Solve(SolveWords {
        formula: Name::make(alloc, formula.as_bytes())?,
        proof: Name::make(alloc, proof.as_bytes())?,
        conflicts,
    })))
}

fn lrat(alloc: Global, found: &ArgMatches<'_>) -> Result<Read<Command>, Memory>
    ensures { IfOk result (λ read. result_ok read
        ≡ lrat_by (λ name. first_of name (rows_of (found_of found.now)))) }
{
    let formula = read!(text(found, "CNF"));
    let proof = read!(text(found, "PROOF"));
    let formula = Name::make(alloc, formula.as_bytes())?;
    let proof = Name::make(alloc, proof.as_bytes())?;
    Ok(Ok(Command::Lrat(formula, proof)))
}

fn generate(alloc: Global, found: &ArgMatches<'_>) -> Result<Read<Command>, Memory>
    ensures { IfOk result (λ read. result_ok read
        ≡ generate_by (λ name. first_of name (rows_of (found_of found.now)))) }
{
    let number = read!(number(found, "N", FEWEST_GENERATED, MOST_GENERATED));
    let proof = read!(text(found, "proof"));
    Ok(Ok(Command::Generate(GenerateWords {
        number: number as u32,
        proof: Name::make(alloc, proof.as_bytes())?,
    })))
}

fn nodes(alloc: Global, found: &ArgMatches<'_>) -> Result<Read<Command>, Memory>
    ensures { IfOk result (λ read. result_ok read
        ≡ nodes_by (λ name. first_of name (rows_of (found_of found.now)))) }
{
    let document = read!(text(found, "DOC"));
    let from = read!(prefix(found, "FROM"));
    let to = read!(prefix(found, "TO"));
    let failures = read!(number(found, "K", 0, FAILURE_LIMIT));
    Ok(Ok(Command::Nodes(NodesWords {
        document: Name::make(alloc, document.as_bytes())?,
        from,
        to,
        failures: failures as u32,
    })))
}

fn prefers(alloc: Global, found: &ArgMatches<'_>) -> Result<Read<Command>, Memory>
    ensures { IfOk result (λ read. result_ok read
        ≡ prefers_by (λ name. first_of name (rows_of (found_of found.now)))) }
{
    let document = read!(text(found, "DOC"));
    let from = read!(prefix(found, "FROM"));
    let to = read!(prefix(found, "TO"));
    let routers = made!(routers(alloc, found, "ROUTERS"));
    let document = Name::make(alloc, document.as_bytes())?;
    Ok(Ok(Command::Prefers(PrefersWords {
        document,
        from,
        to,
        routers,
    })))
}

fn recheck(alloc: Global, found: &ArgMatches<'_>) -> Result<Read<Command>, Memory>
    ensures { IfOk result (λ read. result_ok read
        ≡ recheck_by (λ name. first_of name (rows_of (found_of found.now)))) }
{
    let document = read!(text(found, "DOC"));
    let report = read!(text(found, "REPORT"));
    Ok(Ok(Command::Recheck(RecheckWords {
        document: Name::make(alloc, document.as_bytes())?,
        report: Name::make(alloc, report.as_bytes())?,
    })))
}

/// The command of this kind.
pub fn read(
    alloc: Global,
    kind: CommandKind,
    found: &ArgMatches<'_>,
) -> Result<Read<Command>, Memory>
    ensures { IfOk result (λ read. result_ok read
        ≡ command_by kind (λ name. first_of name (rows_of (found_of found.now)))) }
{
    match kind {
        CommandKind::Verify => verify(alloc, found),
        CommandKind::Trace => trace(alloc, found),
        CommandKind::Repair => repair(alloc, found),
        CommandKind::Check => check(alloc, found),
        CommandKind::Apply => apply(alloc, found),
        CommandKind::Solve => solve(alloc, found),
        CommandKind::Lrat => lrat(alloc, found),
        CommandKind::Generate => generate(alloc, found),
        CommandKind::Nodes => nodes(alloc, found),
        CommandKind::Prefers => prefers(alloc, found),
        CommandKind::Recheck => recheck(alloc, found),
    }
}
