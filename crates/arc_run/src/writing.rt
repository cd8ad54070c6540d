//! Writing the files of an outcome.
ghost use Rattle.arc_outside.specs.Causes.{HasCause};
ghost use Rattle.arc_outside.specs.Files.{WhereTold};
ghost use Rattle.arc_run.specs.Runs.{WereWritten, FailsWithin};
ghost use Rattle.std.specs.Prelude.{◌≡◌, ◌<◌, ◌≤◌, length, IsErrOf, OnOk, OnErr};

use arc_base::Name;
use arc_outside::{Fault, Store};

/// Writes these files in order, up to the first failure.
pub fn write_all<S: Store>(store: &mut S, writes: &[(Name, Name)]) -> Result<(), Fault>
    ensures written { OnOk result (WereWritten writes.now (S.held store.old) (S.held store.new)) }
    ensures stopped { OnErr result
        (WhereTold (FailsWithin writes.now) (S.held store.old) (S.held store.new)) }
    ensures some { OnErr result (0 < length writes.now) }
    ensures cause { HasCause Fault.Failed (S.faults store.old) (S.faults store.new) result }
    ensures never_missing { IsErrOf result Fault.Missing → ⊥ }
    ensures absences { S.absences store.old ≤ S.absences store.new }
    ensures taken { S.taken store.new ≡ S.taken store.old }
{
    for write in writes {
        match store.write_whole(&write.0, write.1.bytes()) {
            Ok(()) => {}
            Err(fault) => return Err(fault),
        }
    }
    Ok(())
}
