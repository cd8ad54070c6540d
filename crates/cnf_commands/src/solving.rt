//! The command `solve CNF --proof NAME`.
ghost use Rattle.clean_logs.specs.CleanLogs.{additions};
ghost use Rattle.clean_logs.specs.Laws.{HasItsVariables};
ghost use Rattle.cnf_commands.specs.Solves.{found_status, found_text, value_text, values_text};
ghost use Rattle.cnf_commands.specs.Solves.{IsSearchResult, IsLogFor, IsSolved, IsSolveRefusal};
ghost use Rattle.cnf_commands.specs.Solves.{WritesProof};
ghost use Rattle.proof_log.specs.Texts.{log_text};
ghost use Rattle.run_files.specs.Answers.{Answers, OnlyReads};
ghost use Rattle.run_files.specs.Limits.{least_limit, proof_limit};
ghost use Rattle.std.specs.Prelude.{◌≡◌, ◌++◌, ◌∷◌, ◌<◌, ◌≤◌, [], length, IfOk, OnOk, string_bytes};

use crate::formulas::read_formula;
use arc_base::limits::{CONFLICT_LIMIT, PROOF_LIMIT, VARIABLE_LIMIT};
use arc_base::{Kind, List, Memory, Name};
use arc_outside::Store;
use cnf_types::Formula;
use command_words::SolveWords;
use proof_log::{Log, text};
use run_files::{Done, Stop, refused};
use run_progress::Listener;
use sat_search::{Found, core_of, search_first};
use std::alloc::Global;
use std::fmt::Write;

/// The result of a search over the formula, and its log.
fn search_formula<L: Listener>(
    alloc: Global,
    formula: &Formula,
    limit: u64,
    listener: &mut L,
) -> Result<(Found, Log), Memory>
    requires variables { HasItsVariables formula.now }
    requires few { formula.now.vars ≤ VARIABLE_LIMIT }
    requires least { 1 ≤ limit }
    requires most { limit ≤ CONFLICT_LIMIT }
    ensures found { IfOk result (λ r. IsSearchResult formula.now limit r.1 r.0) }
    ensures log { IfOk result (λ r. IsLogFor formula.now r.1) }
    ensures few { IfOk result (λ r. additions r.1.steps ≤ limit) }
{
    let mut core = core_of(alloc, formula)?;
    let mut log = Log {
        steps: List::make(alloc),
    };
    let found = search_first(alloc, &mut core, &[], &mut log, limit, listener)?;
    Ok((found, log))
}

/// The text of a log. `Memory` also if it is longer than a proof may be.
fn proof_text(alloc: Global, log: &Log) -> Result<Vec<u8>, Memory>
    ensures text { IfOk result (λ bytes. bytes.items ≡ log_text log.now) }
    ensures short { IfOk result (λ bytes. length bytes.items ≤ proof_limit) }
{
    let bytes = text(alloc, log)?;
    if bytes.len() as u64 > PROOF_LIMIT {
        return Err(Memory);
    }
    Ok(bytes)
}

/// Writes a variable that is true, or the negation of one that is false, and a space.
fn push_value(text: &mut String, var: u64, value: bool) -> Result<(), Memory>
    ensures { OnOk result
        (string_bytes text.new ≡ string_bytes text.old ++ (value_text var value ++ 32 ∷ [])) }
{
    let written = if value {
        write!(text, "{var} ")
    } else {
        write!(text, "-{var} ")
    };
    written.map_err(|_| Memory)
}

/// Writes the values of the variables in order.
fn push_values(text: &mut String, values: &[bool]) -> Result<(), Memory>
    ensures { OnOk result
        (string_bytes text.new ≡ string_bytes text.old ++ values_text values.now) }
{
    for (place, value) in values.iter().enumerate() {
        push_value(text, place as u64 + 1, *value)?;
    }
    Ok(())
}

/// The lines of a model: `s SATISFIABLE`, and after `v` its literals and 0, as SAT solvers print
/// them.
fn model_text(alloc: Global, values: &[bool]) -> Result<Vec<u8>, Memory>
    ensures { IfOk result (λ text. text.items ≡ found_text (Found.Model values.now)) }
{
    let mut text = String::from_str(alloc, "s SATISFIABLE\nv ")?;
    push_values(&mut text, values)?;
    text.push_str("0\n")?;
    Ok(text.into_bytes())
}

/// The lines of a result, as SAT solvers print it.
fn found_text(alloc: Global, found: &Found) -> Result<Vec<u8>, Memory>
    ensures { IfOk result (λ text. text.items ≡ found_text found.now) }
{
    match found {
        Found::Model(values) => model_text(alloc, values.slice()),
        Found::Refuted => Ok(Vec::from_slice(alloc, b"s UNSATISFIABLE\n")?),
        Found::Budget => Ok(Vec::from_slice(alloc, b"s UNKNOWN\n")?),
    }
}

fn found_status(found: &Found) -> u8
    ensures value { result ≡ found_status found.now }
    ensures small { result ≤ 3 }
{
    match found {
        Found::Model(_) => 0,
        Found::Refuted => 2,
        Found::Budget => 3,
    }
}

/// The answer that prints what was found, and writes the log.
fn answer(alloc: Global, proof: &Name, found: &Found, log: &Log) -> Result<Done, Memory>
    ensures text { IfOk result (λ done. done.text ≡ found_text found.now) }
    ensures writes { IfOk result (λ done. done.writes ≡ (proof.now, log_text log.now) ∷ []) }
    ensures short { IfOk result (λ done. length (log_text log.now) ≤ proof_limit) }
    ensures status { IfOk result (λ done. done.status ≡ found_status found.now) }
{
    let bytes = proof_text(alloc, log)?;
    let mut writes = List::make(alloc);
    writes.push((Name::make(alloc, proof.bytes())?, Name::of(bytes)))?;
    Ok(Done {
        text: Name::of(found_text(alloc, found)?),
        writes,
        status: found_status(found),
    })
}

/// Searches for an assignment that satisfies the formula, and writes the log of the search.
pub fn solve<S: Store, L: Listener>(
    alloc: Global,
    words: &SolveWords,
    store: &mut S,
    listener: &mut L,
) -> Result<Done, Stop>
    requires least { 1 ≤ words.now.conflicts }
    requires most { words.now.conflicts ≤ CONFLICT_LIMIT }
    ensures answer { Answers (WritesProof words.now) (IsSolveRefusal words.now) (IsSolved words.now)
        (S.held store.old) result }
    ensures reads { OnlyReads least_limit S.held S.faults S.absences S.taken
        store.old store.new result }
{
    let formula = read_formula(alloc, &words.formula, store)?;
    if words.proof.is(words.formula.bytes()) {
        return Err(refused(alloc, &words.formula, 0, Kind::OutputName));
    }
    let (found, log) = search_formula(alloc, &formula, words.conflicts, listener)?;
    let done = answer(alloc, &words.proof, &found, &log)?;
    Ok(done)
}
