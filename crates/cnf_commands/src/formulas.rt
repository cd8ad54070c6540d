//! The formula that a command begins with.
ghost use Rattle.clean_logs.specs.Laws.{HasItsVariables};
ghost use Rattle.cnf_commands.specs.Formulas.{faulty, ReadsFormula, MakesChecker};
ghost use Rattle.run_files.specs.Answers.{OnlyReads};
ghost use Rattle.run_files.specs.Limits.{least_limit};
ghost use Rattle.std.specs.Prelude.{◌≡◌, ◌⊎◌, ◌≤◌, ◌<◌, IfOk, IfSome, IsSomeAnd};

use arc_base::limits::{FORMULA_FILE_LIMIT, VARIABLE_LIMIT};
use arc_base::{Kind, List, Memory, Name};
use arc_outside::Store;
use cnf_types::{CnfFault, Formula, formula};
use proof_check::Checker;
use run_files::{FileRefusal, Reason, Stop, read_file, refused};
use std::alloc::Global;

/// The refusal of the formula at a line.
fn refused_at(alloc: Global, cnf: &Name, line: u32, reason: Reason) -> Stop
    ensures { (result ≡ Stop.Memory) ⊎
        (result ≡ Stop.Refused (record { name = cnf.now; number = line; reason = reason })) }
{
    match Name::make(alloc, cnf.bytes()) {
        Ok(name) => Stop::Refused(FileRefusal {
            name,
            number: line,
            reason,
        }),
        Err(Memory) => Stop::Memory,
    }
}

/// The refusal of a text that is no formula.
fn faulty(alloc: Global, cnf: &Name, fault: CnfFault) -> Stop
    ensures { (result ≡ Stop.Memory) ⊎
        IsSomeAnd (faulty cnf.now fault) (λ r. result ≡ Stop.Refused r) }
{
    match fault {
        CnfFault::BadHeader(line) => refused_at(alloc, cnf, line, Reason::BadHeader),
        CnfFault::BadNumber(line) => refused_at(alloc, cnf, line, Reason::BadNumber),
        CnfFault::Count(line) => refused_at(alloc, cnf, line, Reason::ClauseCount),
        CnfFault::TooLarge(what, count) => refused(alloc, cnf, 0, Kind::Limit(what, count)),
        CnfFault::Memory => Stop::Memory,
    }
}

/// Reads the formula, or refuses it.
pub fn read_formula<S: Store>(alloc: Global, cnf: &Name, store: &mut S) -> Result<Formula, Stop>
    ensures told { IfSome (S.held store.old) (λ files. ReadsFormula cnf.now files result) }
    ensures variables { IfOk result HasItsVariables }
    ensures few { IfOk result (λ f. f.vars ≤ VARIABLE_LIMIT) }
    ensures reads { OnlyReads least_limit S.held S.faults S.absences S.taken
        store.old store.new result }
{
    let bytes = read_file(alloc, store, cnf, FORMULA_FILE_LIMIT)?;
    match formula(alloc, bytes.as_slice()) {
        Ok(formula) => Ok(formula),
        Err(fault) => Err(faulty(alloc, cnf, fault)),
    }
}

/// Reads the formula straight into a checker that knows it, or refuses it. The checker has no
/// bounds on a price.
pub fn read_checker<S: Store>(alloc: Global, cnf: &Name, store: &mut S) -> Result<Checker, Stop>
    ensures told { IfSome (S.held store.old) (λ files. MakesChecker cnf.now files result) }
    ensures reads { OnlyReads least_limit S.held S.faults S.absences S.taken
        store.old store.new result }
{
    let bytes = read_file(alloc, store, cnf, FORMULA_FILE_LIMIT)?;
    match Checker::read(alloc, bytes.as_slice(), None, &List::make(alloc)) {
        Ok(checker) => Ok(checker),
        Err(fault) => Err(faulty(alloc, cnf, fault)),
    }
}
