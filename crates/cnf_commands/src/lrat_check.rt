//! The command `lrat CNF PROOF`.
ghost use Rattle.cnf_commands.specs.Lrats.{judgement_of, rejection_kind, IsJudged, IsLratRefusal};
ghost use Rattle.run_files.specs.Answers.{Answers, IsJudging, OnlyReads};
ghost use Rattle.run_files.specs.Limits.{least_limit};
ghost use Rattle.std.specs.Prelude.{◌≡◌};

use crate::formulas::read_checker;
use crate::proof_lines::judge_proof;
use arc_base::limits::PROOF_LIMIT;
use arc_base::{CertKind, Name};
use arc_outside::Store;
use proof_check::{Outcome, Rejection, fault_kind};
use run_files::{Done, Judgement, Stop, told, try_file};
use std::alloc::Global;

/// The kind of reason for which a line is rejected.
fn rejection_kind(rejection: Rejection) -> CertKind
    ensures { result ≡ rejection_kind rejection }
{
    match rejection {
        Rejection::Form => CertKind::Form,
        Rejection::Fault(fault) => fault_kind(fault),
        Rejection::NotRefuted => CertKind::NotRefuted,
    }
}

/// The judgement that `lrat` prints for an outcome.
fn judgement_of(outcome: Outcome) -> Judgement
    ensures { result ≡ judgement_of outcome }
{
    match outcome {
        Outcome::Accepted => Judgement::Accepted,
        Outcome::Rejected(line, rejection) => Judgement::Rejected(line, rejection_kind(rejection)),
    }
}

/// Judges whether a proof shows that no assignment satisfies the formula. The formula is read
/// straight into the checker, and the proof twice: for its size, and line by line for its steps.
pub fn lrat<S: Store>(alloc: Global, cnf: &Name, proof: &Name, store: &mut S) -> Result<Done, Stop>
    ensures answer { Answers IsJudging (IsLratRefusal cnf.now proof.now)
        (IsJudged cnf.now proof.now) (S.held store.old) result }
    ensures reads { OnlyReads least_limit S.held S.faults S.absences S.taken
        store.old store.new result }
{
    let checker = read_checker(alloc, cnf, store)?;
    try_file(alloc, store, proof, PROOF_LIMIT)?;
    let outcome = judge_proof(alloc, store, proof, PROOF_LIMIT, checker)?;
    let done = told(alloc, judgement_of(outcome))?;
    Ok(done)
}
