//! The common ending of all commands: the files are written, and then the text is printed.
ghost use Rattle.arc_outside.specs.Causes.{HasCause, Rose, RoseWhere};
ghost use Rattle.arc_outside.specs.Files.{WhereTold};
ghost use Rattle.arc_run.specs.Outcomes.{outcome_text, writes_of, status_of};
ghost use Rattle.arc_run.specs.Runs.{WasPut, WereWritten, FailsWithin};
ghost use Rattle.std.specs.Prelude.{◌≡◌, ◌⊎◌, ◌<◌, ◌≤◌, ◌+◌, ◌++◌, take, drop, option_map, length};
ghost use Rattle.std.specs.Prelude.{IfOk, OnOk, OnErr, IsErrOf, ℕ};

use crate::outcome::{Outcome, Status};
use crate::usage::usage_line;
use crate::writing::write_all;
use arc_base::Name;
use arc_outside::{Fault, Sink, Store};
use run_files::line_of;
use std::alloc::Global;

/// Prints part of the text, from this place on, and returns how many bytes.
fn put_from<K: Sink>(out: &mut K, text: &[u8], at: usize) -> Result<usize, Fault>
    requires { at < length text.now }
    ensures some { IfOk result (λ n. 0 < n) }
    ensures bound { IfOk result (λ n. at + n ≤ length text.now) }
    ensures appended { IfOk result (λ n. K.written out.new
        ≡ option_map (λ written. written ++ take n (drop at text.now)) (K.written out.old)) }
    ensures nothing { OnErr result (K.written out.new ≡ K.written out.old) }
    ensures cause { HasCause Fault.Failed (K.faults out.old) (K.faults out.new) result }
    ensures never_missing { IsErrOf result Fault.Missing → ⊥ }
{
    let (_, rest) = text.split_at(at);
    out.put(rest)
}

/// Prints the whole text.
fn put_all<K: Sink>(out: &mut K, text: &[u8]) -> Result<(), Fault>
    ensures put { OnOk result (WasPut text.now (K.written out.old) (K.written out.new)) }
    ensures stopped { OnErr result
        ((count : ℕ) × WasPut (take count text.now) (K.written out.old) (K.written out.new)) }
    ensures cause { HasCause Fault.Failed (K.faults out.old) (K.faults out.new) result }
    ensures never_missing { IsErrOf result Fault.Missing → ⊥ }
{
    let mut at = 0;
    while at < text.len() {
        match put_from(out, text, at) {
            Ok(n) => at += n,
            Err(fault) => return Err(fault),
        }
    }
    Ok(())
}

/// Prints the text of an outcome.
fn put_text<K: Sink>(alloc: Global, out: &mut K, outcome: &Outcome) -> Result<(), Fault>
    ensures put { OnOk result
        (WasPut (outcome_text outcome.now) (K.written out.old) (K.written out.new)) }
    ensures stopped { OnErr result ((count : ℕ) ×
        WasPut (take count (outcome_text outcome.now)) (K.written out.old) (K.written out.new)) }
    ensures cause { HasCause Fault.Failed (K.faults out.old) (K.faults out.new) result }
    ensures never_missing { IsErrOf result Fault.Missing → ⊥ }
{
    match outcome {
        Outcome::Usage => match usage_line(alloc) {
            Ok(line) => put_all(out, line.as_slice()),
            Err(_) => Err(Fault::Memory),
        },
        Outcome::Refused(refusal) => match line_of(alloc, refusal) {
            Ok(line) => put_all(out, line.as_slice()),
            Err(_) => Err(Fault::Memory),
        },
        Outcome::Done(done) => put_all(out, done.text.bytes()),
    }
}

/// The files that an outcome writes, in order.
fn writes_of(outcome: &Outcome) -> &[(Name, Name)]
    ensures { result.now ≡ writes_of outcome.now }
{
    match outcome {
        Outcome::Usage | Outcome::Refused(_) => &[],
        Outcome::Done(done) => done.writes.slice(),
    }
}

/// The status of an outcome.
fn status_of(outcome: &Outcome) -> u8
    ensures { result ≡ status_of outcome.now }
{
    match outcome {
        Outcome::Usage => 4,
        Outcome::Refused(_) => 5,
        Outcome::Done(done) => done.status,
    }
}

/// Ends a run with this outcome: writes its files, prints its text, and returns the status.
pub fn finish<S: Store, K: Sink>(
    alloc: Global,
    outcome: &Outcome,
    store: &mut S,
    out: &mut K,
) -> Status
    requires { status_of outcome.now ≤ 5 }

    ensures ended { result.code < 6 → (result.code ≡ status_of outcome.now)
        × WereWritten (writes_of outcome.now) (S.held store.old) (S.held store.new)
        × WasPut (outcome_text outcome.now) (K.written out.old) (K.written out.new) }
    ensures store_failed { result.code ≡ 6 → Rose (S.faults store.old) (S.faults store.new)
        × (0 < length (writes_of outcome.now))
        × WhereTold (FailsWithin (writes_of outcome.now)) (S.held store.old) (S.held store.new)
        × (K.written out.new ≡ K.written out.old) }
    ensures sink_failed { result.code ≡ 7 → Rose (K.faults out.old) (K.faults out.new)
        × WereWritten (writes_of outcome.now) (S.held store.old) (S.held store.new)
        × ((count : ℕ) × WasPut (take count (outcome_text outcome.now)) (K.written out.old)
        (K.written out.new)) }
    ensures memory { result.code ≡ 8 →
        (WhereTold (FailsWithin (writes_of outcome.now)) (S.held store.old) (S.held store.new) ×
        (K.written out.new ≡ K.written out.old))
        ⊎ (WereWritten (writes_of outcome.now) (S.held store.old) (S.held store.new)
        × ((count : ℕ) × WasPut (take count (outcome_text outcome.now)) (K.written out.old)
        (K.written out.new))) }
    ensures code { result.code ≤ 8 }
    ensures absences { S.absences store.old ≤ S.absences store.new }
    ensures taken { S.taken store.new ≡ S.taken store.old }
    ensures faults { RoseWhere (result.code ≡ 6) (S.faults store.old) (S.faults store.new) }
    ensures sink_faults { RoseWhere (result.code ≡ 7) (K.faults out.old) (K.faults out.new) }
{
    match write_all(store, writes_of(outcome)) {
        Ok(()) => {}
        Err(Fault::Failed) => return Status { code: 6 },
        Err(_) => return Status { code: 8 },
    }
    match put_text(alloc, out, outcome) {
        Ok(()) => Status {
            code: status_of(outcome),
        },
        Err(Fault::Failed) => Status { code: 7 },
        Err(_) => Status { code: 8 },
    }
}
