//! Files that are read line by line.
ghost use Rattle.arc_outside.specs.LinesRead.{ahead, HandsOut};
ghost use Rattle.arc_outside.specs.Reads.{OnlyReadsFile, TookJust};
ghost use Rattle.run_files.specs.Answers.{OnlyReads};
ghost use Rattle.run_files.specs.ReadingLines.{IsReadPast, IsWithinLimit, MovesOn};
ghost use Rattle.run_files.specs.Refusals.{bytes_at};
ghost use Rattle.std.specs.Prelude.{◌≡◌, ◌+◌, ◌-◌, ◌^◌, ◌<◌, ◌≤◌, min, false, IfOk, IfSome, OnOk};
ghost use Rattle.std.specs.Prelude.{IsTrue, length};

use crate::outcome::Stop;
use crate::refusals::stop_of;
use arc_base::Name;
use arc_base::limits::PIECE_LENGTH;
use arc_outside::{Fault, Pieces, ReadAll, Store};
use std::alloc::Global;

/// Moves to the next line of a file, or refuses the file.
pub fn next_line<S: Store>(
    alloc: Global,
    pieces: &mut Pieces,
    store: &mut S,
    name: &Name,
) -> Result<bool, Stop>
    requires { pieces.old.failed ≡ false }
    ensures told { IfSome (S.held store.old) (λ files.
        MovesOn files name.now pieces.old pieces.new result) }
    ensures ok { OnOk result (pieces.new.failed ≡ false) }
    ensures fewer { IfOk result (λ found. IsTrue found → ahead pieces.new < ahead pieces.old) }
    ensures limit { pieces.new.limit ≡ pieces.old.limit }
    ensures reads { OnlyReads (pieces.old.limit - pieces.old.place) S.held S.faults S.absences
        S.taken store.old store.new result }
    ensures took { min (S.taken store.old + (pieces.new.place - pieces.old.place)) (2 ^ 64 - 1)
        ≤ S.taken store.new }
    ensures no_more { OnOk result
        (S.taken store.new ≤ S.taken store.old + (pieces.new.place - pieces.old.place)) }
    ensures handed { OnOk result (HandsOut pieces.old pieces.new) }
    ensures onward { pieces.old.place ≤ pieces.new.place }
{
    match pieces.next(store, name) {
        Ok(found) => Ok(found),
        Err(fault) => Err(stop_of(alloc, name, fault)),
    }
}

/// Reads a file to its end, if it has at most `limit` bytes, and says how many it has. It takes the
/// memory of one piece. The first read is at place 0, and each other begins where the one before
/// ended. It ends for every store, since each turn takes a byte.
fn read_past<S: Store>(
    alloc: Global,
    store: &mut S,
    name: &Name,
    limit: u64,
) -> Result<u64, ReadAll>
    ensures told { IfSome (S.held store.old) (λ files. IsReadPast (files name.now) limit result) }
    ensures reads { OnlyReadsFile limit S.held S.faults S.absences S.taken
        store.old store.new result }
    ensures took { IfOk result (λ n. TookJust n (S.taken store.old) (S.taken store.new)) }
    ensures few { IfOk result (λ n. n ≤ limit) }
{
    let mut piece = match Vec::from_elem(alloc, 0u8, PIECE_LENGTH) {
        Ok(piece) => piece,
        Err(_) => return Err(ReadAll::Fault(Fault::Memory)),
    };
    let mut place = 0;
    'pieces: loop {
        let n = match store.read_at(name, place, piece.as_mut_slice()) {
            Ok(n) => n,
            Err(fault) => return Err(ReadAll::Fault(fault)),
        };
        if n == 0 {
            return Ok(place);
        }
        if n as u64 > limit - place {
            return Err(ReadAll::TooLong);
        }
        place += n as u64;
    }
}

/// Reads a file to its end and keeps nothing of it, or refuses it.
pub fn try_file<S: Store>(alloc: Global, store: &mut S, name: &Name, limit: u64) -> Result<(), Stop>
    ensures told { IfSome (S.held store.old) (λ files. IsWithinLimit limit files name.now result) }
    ensures reads { OnlyReads limit S.held S.faults S.absences S.taken store.old store.new result }
    ensures took { OnOk result (IfSome (S.held store.old) (λ files.
        TookJust (length (bytes_at files name.now)) (S.taken store.old) (S.taken store.new))) }
    ensures no_more { OnOk result (S.taken store.new ≤ S.taken store.old + limit) }
{
    match read_past(alloc, store, name, limit) {
        Ok(_) => Ok(()),
        Err(fault) => Err(stop_of(alloc, name, fault)),
    }
}
