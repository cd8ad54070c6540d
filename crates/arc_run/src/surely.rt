//! A run over a store and a sink that never fail.
ghost use Rattle.arc_outside.specs.Causes.{Rose};
ghost use Rattle.arc_outside.specs.Reads.{TookMore};
ghost use Rattle.arc_run.specs.Runs.{Runs};
ghost use Rattle.command_words.specs.Commands.{command_of};
ghost use Rattle.run_files.specs.Limits.{least_limit};

use crate::outcome::Status;
use crate::top::run;
use arc_base::Name;
use arc_outside::{Sink, Store, SureSink, SureStore};
use std::alloc::Global;

/// Over a store and a sink that never fail, a run ends with the outcome or out of memory.
pub fn run_surely(
    alloc: Global,
    words: &[Name],
    store: &mut SureStore,
    out: &mut SureSink,
) -> Status
    ensures { Runs (command_of words.now)
        (Rose (⟦<SureStore as Store>⟧.absences store.old)
        (⟦<SureStore as Store>⟧.absences store.new))
        (TookMore least_limit (⟦<SureStore as Store>⟧.taken store.old)
        (⟦<SureStore as Store>⟧.taken store.new)) ⊥ ⊥
        (⟦<SureStore as Store>⟧.held store.old) (⟦<SureStore as Store>⟧.held store.new)
        (⟦<SureSink as Sink>⟧.written out.old) (⟦<SureSink as Sink>⟧.written out.new) result.code }
{
    run(alloc, words, store, out)
}
