//! The first reading of a certificate: its size and its first line.
ghost use Rattle.check_commands.specs.Readings.{ReadsHead};
ghost use Rattle.check_commands.specs.RepairChecks.{begins_repair};
ghost use Rattle.run_files.specs.Answers.{OnlyReads};
ghost use Rattle.std.specs.Prelude.{◌≡◌, ◌∷◌, ◌+◌, ◌≤◌, [], IfSome, OnOk};

use arc_base::Name;
use arc_outside::{Pieces, Store};
use run_files::{Stop, next_line};
use std::alloc::Global;

/// Whether a line is the head of a repair's certificate.
fn is_head(line: &[u8]) -> bool
    ensures { result ≡ begins_repair (line.now ∷ []) }
{
    line == b"arc-repair 1".as_slice()
}

/// Reads a certificate to its end, and returns whether it begins as that of a repair, or refuses
/// it. It keeps one line at a time in memory.
pub fn begins_repair<S: Store>(
    alloc: Global,
    certificate: &Name,
    limit: u64,
    store: &mut S,
) -> Result<bool, Stop>
    ensures told { IfSome (S.held store.old) (λ files.
        ReadsHead limit files certificate.now result) }
    ensures reads { OnlyReads limit S.held S.faults S.absences S.taken store.old store.new result }
    ensures no_more { OnOk result (S.taken store.new ≤ S.taken store.old + limit) }
{
    let mut pieces = Pieces::make(alloc, limit);
    match next_line(alloc, &mut pieces, store, certificate) {
        Ok(true) => {}
        Ok(false) => return Ok(false),
        Err(stop) => return Err(stop),
    }
    let begins = is_head(pieces.line());
    'lines: loop {
        match next_line(alloc, &mut pieces, store, certificate) {
            Ok(true) => {}
            Ok(false) => return Ok(begins),
            Err(stop) => return Err(stop),
        }
    }
}
