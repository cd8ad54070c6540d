//! The top call.
ghost use Rattle.arc_outside.specs.Causes.{Rose, RoseWhere};
ghost use Rattle.arc_outside.specs.Reads.{TookMore, TookOn};
ghost use Rattle.arc_run.specs.Headline.{Tells};
ghost use Rattle.arc_run.specs.Outcomes.{HasOutcomeCause, IsCommandAnswer, IsDefined, outcome_text};
ghost use Rattle.arc_run.specs.Outcomes.{IsOwn, IsRefusal, status_of};
ghost use Rattle.arc_run.specs.Runs.{LeavesOutcome, Runs};
ghost use Rattle.command_words.specs.Commands.{command_of, HasLimit};
ghost use Rattle.run_files.specs.Answers.{Answers, OnlyReads};
ghost use Rattle.run_files.specs.Limits.{least_limit};
ghost use Rattle.std.specs.Prelude.{◌≡◌, ◌⊎◌, ◌<◌, ◌≤◌, Some, None, IfSome, IsSomeAnd, IfOk};
ghost use Rattle.std.specs.Prelude.{IsErrOf};

use crate::ending::finish;
use crate::outcome::{Ended, Outcome, Status};
use apply_commands::apply;
use arc_base::Name;
use arc_outside::{Sink, Store};
use check_commands::check;
use cnf_commands::{lrat, solve};
use command_words::{Command, read_words};
use generate_commands::generate;
use reach_commands::{nodes, prefers, recheck};
use repair_commands::repair;
use run_files::{Done, Stop};
use run_progress::{Listener, Nobody, Work};
use std::alloc::Global;
use verify_commands::{trace, verify};

/// Why a run has no outcome.
#[derive(Clone, Copy, Debug, PartialEq, Eq)]
enum Halt {
    Memory,
    Failed,
}

/// Runs the function of the command.
fn answer<S: Store, L: Listener>(
    alloc: Global,
    command: &Command,
    store: &mut S,
    listener: &mut L,
) -> Result<Done, Stop>
    requires { HasLimit command.now }
    ensures answer { Answers (IsOwn command.now) (IsRefusal command.now)
        (IsCommandAnswer command.now) (S.held store.old) result }
    ensures reads { OnlyReads least_limit S.held S.faults S.absences S.taken
        store.old store.new result }
{
    match command {
        Command::Verify(document) => verify(alloc, document, store, listener),
        Command::Trace(words) => trace(alloc, words, store),
        Command::Repair(words) => repair(alloc, words, store, listener),
        Command::Check(document, certificate) => check(alloc, document, certificate, store),
        Command::Apply(words) => apply(alloc, words, store),
        Command::Solve(words) => solve(alloc, words, store, listener),
        Command::Lrat(cnf, proof) => lrat(alloc, cnf, proof, store),
        Command::Generate(words) => generate(alloc, words, listener),
        Command::Nodes(words) => nodes(alloc, words, store),
        Command::Prefers(words) => prefers(alloc, words, store),
        Command::Recheck(words) => recheck(alloc, words, store, listener),
    }
}

/// The outcome of a command.
fn outcome_of<S: Store, L: Listener>(
    alloc: Global,
    command: &Command,
    store: &mut S,
    listener: &mut L,
) -> Result<Outcome, Halt>
    requires { HasLimit command.now }
    ensures defined { IfOk result (λ outcome.
        IsDefined (Some command.now) (S.held store.old) outcome) }
    ensures small { IfOk result (λ outcome. status_of outcome ≤ 5) }
    ensures cause { IfOk result
        (HasOutcomeCause (Rose (S.absences store.old) (S.absences store.new))
        (TookMore least_limit (S.taken store.old) (S.taken store.new))) }
    ensures failed { RoseWhere (IsErrOf result Halt.Failed) (S.faults store.old)
        (S.faults store.new) }
    ensures same { S.held store.new ≡ S.held store.old }
    ensures absences { S.absences store.old ≤ S.absences store.new }
    ensures taken { TookOn (S.taken store.old) (S.taken store.new) }
{
    match answer(alloc, command, store, listener) {
        Ok(done) => Ok(Outcome::Done(done)),
        Err(Stop::Refused(refusal)) => Ok(Outcome::Refused(refusal)),
        Err(Stop::Memory) => Err(Halt::Memory),
        Err(Stop::Failed) => Err(Halt::Failed),
    }
}

/// Finds the outcome that the words and the files define. It writes nothing.
fn perform<S: Store, L: Listener>(
    alloc: Global,
    words: &[Name],
    store: &mut S,
    listener: &mut L,
) -> Result<Outcome, Halt>
    ensures defined { IfOk result (λ outcome.
        IsDefined (command_of words.now) (S.held store.old) outcome) }
    ensures small { IfOk result (λ outcome. status_of outcome ≤ 5) }
    ensures cause { IfOk result
        (HasOutcomeCause (Rose (S.absences store.old) (S.absences store.new))
        (TookMore least_limit (S.taken store.old) (S.taken store.new))) }
    ensures failed { RoseWhere (IsErrOf result Halt.Failed) (S.faults store.old)
        (S.faults store.new) }
    ensures failed_in_command { IsErrOf result Halt.Failed → command_of words.now ≡ None → ⊥ }
    ensures same { S.held store.new ≡ S.held store.old }
    ensures absences { S.absences store.old ≤ S.absences store.new }
    ensures taken { TookOn (S.taken store.old) (S.taken store.new) }
{
    match read_words(alloc, words) {
        Ok(Some(command)) => outcome_of(alloc, &command, store, listener),
        Ok(None) => Ok(Outcome::Usage),
        Err(_) => Err(Halt::Memory),
    }
}

/// Finds the outcome, ends with it, and returns it.
fn run_defined<S: Store, K: Sink, L: Listener>(
    alloc: Global,
    words: &[Name],
    store: &mut S,
    out: &mut K,
    listener: &mut L,
) -> Ended
    ensures runs { Runs (command_of words.now) (Rose (S.absences store.old) (S.absences store.new))
        (TookMore least_limit (S.taken store.old) (S.taken store.new))
        (Rose (S.faults store.old) (S.faults store.new))
        (Rose (K.faults out.old) (K.faults out.new)) (S.held store.old) (S.held store.new)
        (K.written out.old) (K.written out.new) result.status.code }
    ensures store_fault { RoseWhere (result.status.code ≡ 6)
        (S.faults store.old) (S.faults store.new) }
    ensures sink_fault { RoseWhere (result.status.code ≡ 7) (K.faults out.old) (K.faults out.new) }
    ensures outcome { result.status.code < 6 → IsSomeAnd result.outcome (λ outcome.
        (result.status.code ≡ status_of outcome) ×
        LeavesOutcome (command_of words.now) (Rose (S.absences store.old) (S.absences store.new))
        (TookMore least_limit (S.taken store.old) (S.taken store.new))
        (S.held store.old) (S.held store.new) (K.written out.old) (K.written out.new)
        outcome (outcome_text outcome)) }
    ensures defined { IfSome result.outcome
        (IsDefined (command_of words.now) (S.held store.old)) }
{
    match perform(alloc, words, store, listener) {
        Ok(outcome) => {
            listener.heard(Work::Ending);
            Ended {
                status: finish(alloc, &outcome, store, out),
                outcome: Some(outcome),
            }
        }
        Err(Halt::Memory) => Ended {
            status: Status { code: 8 },
            outcome: None,
        },
        Err(Halt::Failed) => Ended {
            status: Status { code: 6 },
            outcome: None,
        },
    }
}

/// Runs the command of the words over the store and the sink, and returns the exit status and the
/// outcome. All text is printed at the end, after all files are read and written. The listener
/// hears what the run is doing, and of its ending before the first file is written.
pub fn run_telling<S: Store, K: Sink, L: Listener>(
    alloc: Global,
    words: &[Name],
    store: &mut S,
    out: &mut K,
    listener: &mut L,
) -> Ended
    ensures runs { Runs (command_of words.now) (Rose (S.absences store.old) (S.absences store.new))
        (TookMore least_limit (S.taken store.old) (S.taken store.new))
        (Rose (S.faults store.old) (S.faults store.new))
        (Rose (K.faults out.old) (K.faults out.new)) (S.held store.old) (S.held store.new)
        (K.written out.old) (K.written out.new) result.status.code }

    // As for `run`: a failed call ends the run, and the store and the sink each have a status of
    // their own.
    ensures store_fault { RoseWhere (result.status.code ≡ 6)
        (S.faults store.old) (S.faults store.new) }
    ensures sink_fault { RoseWhere (result.status.code ≡ 7) (K.faults out.old) (K.faults out.new) }
    ensures usage { result.status.code ≡ 4 → command_of words.now ≡ None }
    ensures no_command { command_of words.now ≡ None →
        (result.status.code ≡ 4) ⊎ (7 ≤ result.status.code) }

    // The headline, as for `run`.
    ensures told { (command : Command) → command_of words.now ≡ Some command
        → result.status.code < 6 → IfSome (S.held store.old) (λ before.
        IsSomeAnd (S.held store.new) (Tells command result.status.code before)) }

    // Below status 6 the outcome is the one that the run ended with: the status is its status, its
    // files were written, and its text was printed. After 5 it is the refusal of the printed line.
    ensures outcome { result.status.code < 6 → IsSomeAnd result.outcome (λ outcome.
        (result.status.code ≡ status_of outcome) ×
        LeavesOutcome (command_of words.now) (Rose (S.absences store.old) (S.absences store.new))
        (TookMore least_limit (S.taken store.old) (S.taken store.new))
        (S.held store.old) (S.held store.new) (K.written out.old) (K.written out.new)
        outcome (outcome_text outcome)) }

    // Any outcome is one that the words and the files define, also if writing or printing failed.
    ensures defined { IfSome result.outcome
        (IsDefined (command_of words.now) (S.held store.old)) }
{
    run_defined(alloc, words, store, out, listener)
}

/// Runs the command of the words over the store and the sink, and returns the exit status. All text
/// is printed at the end, after all files are read and written.
pub fn run<S: Store, K: Sink>(alloc: Global, words: &[Name], store: &mut S, out: &mut K) -> Status
    ensures runs { Runs (command_of words.now) (Rose (S.absences store.old) (S.absences store.new))
        (TookMore least_limit (S.taken store.old) (S.taken store.new))
        (Rose (S.faults store.old) (S.faults store.new))
        (Rose (K.faults out.old) (K.faults out.new))
        (S.held store.old) (S.held store.new) (K.written out.old) (K.written out.new) result.code }

    // A failed call ends the run: the status is 6 exactly if a call of the store failed, 7 exactly
    // if one of the sink did, and no second call fails.
    ensures store_fault { RoseWhere (result.code ≡ 6) (S.faults store.old) (S.faults store.new) }
    ensures sink_fault { RoseWhere (result.code ≡ 7) (K.faults out.old) (K.faults out.new) }

    // The usage line is printed exactly if the words match no command, except for 7 and 8.
    ensures usage { result.code ≡ 4 → command_of words.now ≡ None }
    ensures no_command { command_of words.now ≡ None → (result.code ≡ 4) ⊎ (7 ≤ result.code) }

    // The headline: below status 6 the status of each command means what `Tells` says of it, in the
    // words of the subject, about the files before and after. It is about a store that says what it
    // holds (`S.held`). Over one that says nothing of its content it claims nothing, and the clause
    // `runs` claims only the causes of the statuses, and which command has which status.
    ensures told { (command : Command) → command_of words.now ≡ Some command → result.code < 6
        → IfSome (S.held store.old) (λ before.
        IsSomeAnd (S.held store.new) (Tells command result.code before)) }
{
    run_telling(alloc, words, store, out, &mut Nobody).status
}
