//! Judging a proof line by line.
ghost use Rattle.cnf_commands.specs.ProofLines.{JudgesProof};
ghost use Rattle.proof_check.specs.Outcomes.{log_outcome};
ghost use Rattle.proof_check.specs.View.{known};
ghost use Rattle.run_files.specs.Answers.{OnlyReads};
ghost use Rattle.std.specs.Prelude.{◌≡◌, ◌^◌, ◌<◌, [], IfSome};

use arc_base::{Memory, Name};
use arc_outside::Store;
use proof_check::{Checker, Outcome, Rejection, judge_line};
use run_files::{LineJudge, Stop, judge_lines};
use std::alloc::Global;
use std::ops::ControlFlow;

/// The outcome after the last line.
fn last_word(checker: &Checker, number: u64) -> Outcome
    ensures { result ≡ log_outcome (known checker.now) number [] }
{
    if checker.refuted() {
        Outcome::Accepted
    } else {
        Outcome::Rejected(number, Rejection::NotRefuted)
    }
}

/// The judge of a proof: a checker that has taken the steps so far, and the number of the next
/// line.
#[derive(Drop)]
struct ProofJudge {
    checker: Checker,
    number: u64,
}

impl LineJudge for ProofJudge {
    ghost use Rattle.proof_check.specs.Outcomes.{log_outcome};
    ghost use Rattle.proof_check.specs.View.{known};
    ghost use Rattle.std.specs.Prelude.{◌≡◌, ◌-◌, ◌^◌};

    type Outcome = Outcome;

    ghost room = { λ judge. 2 ^ 64 - 1 - judge.number };

    ghost can_go_on = { λ _. Unit {0} };

    ghost leads_to = { λ judge ls o. o ≡ log_outcome (known judge.checker) judge.number ls };

    ghost refuses = { λ _ _ _. ⊥ };

    fn line(self, alloc: Global, line: &[u8]) -> Result<ControlFlow<Outcome, ProofJudge>, Stop> {
        let number = self.number;
        let mut checker = self.checker;
        match judge_line(alloc, &mut checker, line) {
            Ok(None) => Ok(ControlFlow::Continue(ProofJudge {
                checker,
                number: number + 1,
            })),
            Ok(Some(rejection)) => Ok(ControlFlow::Break(Outcome::Rejected(number, rejection))),
            Err(Memory) => Err(Stop::Memory),
        }
    }

    fn end(self, _alloc: Global) -> Result<Outcome, Stop> {
        Ok(last_word(&self.checker, self.number))
    }
}

/// Judges the lines of a proof one by one with a checker, or refuses its file.
pub fn judge_proof<S: Store>(
    alloc: Global,
    store: &mut S,
    proof: &Name,
    limit: u64,
    checker: Checker,
) -> Result<Outcome, Stop>
    requires { limit < 2 ^ 63 }
    ensures told { IfSome (S.held store.old) (λ files.
        JudgesProof limit files proof.now (known checker) result) }
    ensures reads { OnlyReads limit S.held S.faults S.absences S.taken store.old store.new result }
{
    let judge = ProofJudge { checker, number: 1 };
    judge_lines(alloc, store, proof, limit, judge)
}
