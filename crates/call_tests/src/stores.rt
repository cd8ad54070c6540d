//! Stores and sinks: those that never fail, and those of the system.

use arc_base::{List, Name};
use arc_outside::{
    DiskStore, Fault, Operation, ReadAll, Sink, StdSink, Store, SureSink, SureStore, read_all,
};
use std::alloc::Global;
use std::path::PathBuf;
use std::test::Fail;
use std::time::SystemTime;
use std::{env, fs};

/// Whether a file holds these bytes.
fn holds<S: Store>(
    alloc: Global,
    store: &mut S,
    name: &Name,
    bytes: &[u8],
) -> Result<bool, ReadAll> {
    let whole = read_all(alloc, store, name, bytes.len() as u64)?;
    Ok(whole.as_slice() == bytes)
}

/// Whether a store that never fails holds what was written.
fn sure_store_holds(alloc: Global) -> Result<bool, Fail> {
    let name = Name::make(alloc, b"a")?;
    let mut store = SureStore::make(alloc, List::make(alloc))?;
    store.write_whole(&name, b"new")?;
    Ok(holds(alloc, &mut store, &name, b"new")?)
}

#[test]
fn sure_calls_answer(rt: HostRuntime) -> Result<(), Fail> {
    assert!(rt; sure_store_holds(rt.alloc())?);
    let mut out = SureSink::make(rt.alloc());
    assert_eq!(rt; out.put(b"text")?, 4);
    assert_eq!(rt; out.bytes(), b"text".as_slice());
    Ok(())
}

/// Why the file of this path is not written under another name.
fn unwritten<S: Store>(alloc: Global, store: &mut S, path: &str) -> Result<Option<Fault>, Fail> {
    let other = Name::make(alloc, format!(in alloc; "/.{path}")?.as_bytes())?;
    Ok(store.write_whole(&other, b"lost").err())
}

/// Why a file is not read before it is written; whether it is read as it was written; why not
/// within a limit that is too low; and why it is not written over once it was read, whatever its
/// name.
type Answers = (Option<ReadAll>, bool, Option<ReadAll>, Option<Fault>);

fn answers<S: Store>(
    alloc: Global,
    store: &mut S,
    name: &Name,
    path: &str,
) -> Result<Answers, Fail> {
    let missing = read_all(alloc, store, name, 9).err();
    store.write_whole(name, b"written")?;
    let is_whole = holds(alloc, store, name, b"written")?;
    let long = read_all(alloc, store, name, 6).err();
    Ok((missing, is_whole, long, unwritten(alloc, store, path)?))
}

/// What the disk answers for a path, and whether its last failure names that path.
fn disk_answers(rt: HostRuntime, path: &str) -> Result<(Answers, bool), Fail> {
    let name = Name::make(rt.alloc(), path.as_bytes())?;
    let mut store = DiskStore::make(rt, rt.alloc());
    let answers = answers(rt.alloc(), &mut store, &name, path)?;
    let read_as = store.failure().and_then(|failure| failure.read_as.as_ref());
    let is_named = read_as.map(Name::bytes) == Some(path.as_bytes());
    fs::remove_file(&rt, path)?;
    Ok((answers, is_named))
}

/// A path of its own in the temporary folder.
fn own_path(rt: HostRuntime) -> Result<PathBuf, Fail> {
    let now = SystemTime::now(&rt)?;
    let stamp = now.duration_since(SystemTime::UNIX_EPOCH)?.as_nanos();
    let mut place = env::temp_dir(&rt)?;
    place.push(format!(in rt.alloc(); "arcv-test-{stamp}")?)?;
    Ok(place)
}

#[test]
fn the_disk_reads_and_writes(rt: HostRuntime) -> Result<(), Fail> {
    let (answers, is_named) = disk_answers(rt, own_path(rt)?.as_path().as_str())?;
    let missing = Some(ReadAll::Fault(Fault::Missing));
    let long = Some(ReadAll::TooLong);
    assert_eq!(rt; answers, (missing, true, long, Some(Fault::Failed)));
    assert!(rt; is_named);
    Ok(())
}

/// Why a name that is no path is not read, and what the disk tried then.
fn no_path(rt: HostRuntime) -> Result<(Option<ReadAll>, Option<Operation>), Fail> {
    let name = Name::make(rt.alloc(), b"\xff")?;
    let mut store = DiskStore::make(rt, rt.alloc());
    let fault = read_all(rt.alloc(), &mut store, &name, 9).err();
    Ok((fault, store.failure().map(|failure| failure.operation)))
}

#[test]
fn a_name_that_is_no_path_is_not_read(rt: HostRuntime) -> Result<(), Fail> {
    let fault = Some(ReadAll::Fault(Fault::Failed));
    assert_eq!(rt; no_path(rt)?, (fault, Some(Operation::Reading)));
    Ok(())
}

#[test]
fn standard_output_takes_text(rt: HostRuntime) -> Result<(), Fail> {
    assert_eq!(rt; StdSink::make(rt).put(b"put\n")?, 4);
    Ok(())
}
