//! Files that are read.
ghost use Rattle.arc_outside.specs.Reads.{TookJust};
ghost use Rattle.run_files.specs.Answers.{OnlyReads};
ghost use Rattle.run_files.specs.Limits.{least_limit, router_limit};
ghost use Rattle.run_files.specs.Reading.{ReadsFile, ReadsRouters};
ghost use Rattle.std.specs.Prelude.{◌≡◌, ◌^◌, ◌<◌, ◌≤◌, All, length, min, IfOk, IfSome};

use crate::limits::Limits;
use crate::outcome::Stop;
use crate::refusals::stop_of;
use arc_base::limits::ROUTER_FILE_LIMIT;
use arc_base::{List, Memory, Name};
use arc_outside::{Store, read_all};
use std::alloc::Global;

/// Reads a file whole, or refuses it.
pub fn read_file<S: Store>(
    alloc: Global,
    store: &mut S,
    name: &Name,
    limit: u64,
) -> Result<Vec<u8>, Stop>
    ensures told { IfSome (S.held store.old) (λ files. ReadsFile limit files name.now result) }
    ensures few { IfOk result (λ bytes. length bytes.items ≤ limit) }
    ensures reads { OnlyReads limit S.held S.faults S.absences S.taken store.old store.new result }
    ensures took { IfOk result (λ bytes.
        TookJust (length bytes.items) (S.taken store.old) (S.taken store.new)) }
{
    match read_all(alloc, store, name, limit) {
        Ok(bytes) => Ok(bytes),
        Err(fault) => Err(stop_of(alloc, name, fault)),
    }
}

/// Reads a router file, where `room` bytes are left for it and the files after it.
fn read_router<S: Store>(
    alloc: Global,
    store: &mut S,
    name: &Name,
    limits: Limits,
    room: u64,
) -> Result<Vec<u8>, Stop>
    ensures told { IfSome (S.held store.old) (λ files.
        ReadsFile (min (router_limit limits) room) files name.now result) }
    ensures within { IfOk result (λ bytes. length bytes.items ≤ room) }
    ensures few { IfOk result (λ bytes. length bytes.items ≤ ROUTER_FILE_LIMIT) }
    ensures bytes { IfOk result (λ bytes. length bytes.items ≤ router_limit limits) }
    ensures reads { OnlyReads (min least_limit room) S.held S.faults S.absences S.taken
        store.old store.new result }
    ensures took { IfOk result (λ bytes.
        TookJust (length bytes.items) (S.taken store.old) (S.taken store.new)) }
{
    read_file(alloc, store, name, limits.router_bytes().min(room))
}

/// Reads the router files in order, or refuses the first that is to be refused: one that is
/// missing, that has more bytes than a router file may have, or with which the files so far have
/// more than all may have.
pub fn read_routers<S: Store>(
    alloc: Global,
    store: &mut S,
    names: &[Name],
    limits: Limits,
) -> Result<List<Name>, Stop>
    requires { length names.now < 2 ^ 32 }
    ensures told { IfSome (S.held store.old) (λ files. ReadsRouters limits files names.now result) }
    ensures count { IfOk result (λ contents. length contents ≡ length names.now) }
    ensures few { IfOk result (All (λ text. length text < 2 ^ 32)) }
    ensures bytes { IfOk result (All (λ text. length text ≤ router_limit limits)) }
    ensures reads { OnlyReads least_limit S.held S.faults S.absences S.taken
        store.old store.new result }
{
    let mut contents = List::make(alloc);
    let mut room = limits.all_bytes();
    for name in names {
        let bytes = match read_router(alloc, store, name, limits, room) {
            Ok(bytes) => bytes,
            Err(stop) => return Err(stop),
        };
        room -= bytes.len() as u64;
        match contents.push(Name::of(bytes)) {
            Ok(()) => {}
            Err(Memory) => return Err(Stop::Memory),
        }
    }
    Ok(contents)
}
