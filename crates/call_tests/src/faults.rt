//! Each call of a store or a sink fails in turn, or moves few bytes. That each status comes for its
//! cause, and leaves what it must, is promised by the contract of `run` for every store and every
//! sink; these cases show that it is the contract that was meant.
ghost use Rattle.std.specs.Prelude.{◌≤◌};

mod cases;

use arc_base::{List, Memory, Name};
use arc_outside::{MemSink, MemStore};
use arc_run::run;
use cases::CASES;
use std::alloc::Global;
use std::test::Fail;

/// A command: the files, the words, the text that is printed, the status, how often the store is
/// called, and which files are written by the last of these calls.
struct Case {
    files: &'static [(&'static str, &'static str)],
    words: &'static [&'static str],
    text: &'static str,
    code: u8,
    calls: u64,
    outputs: &'static [&'static str],
}

/// The end of a run.
#[derive(Drop)]
struct Ended {
    store: MemStore,
    out: MemSink,
    code: u8,
}

fn push<T: Drop>(list: &mut List<T>, item: T) -> Result<(), Memory> {
    if list.len() >= 1000 {
        return Err(Memory);
    }
    list.push(item)
}

fn file(alloc: Global, name: &str, text: &str) -> Result<(Name, Name), Memory> {
    let name = Name::make(alloc, name.as_bytes())?;
    let text = Name::make(alloc, text.as_bytes())?;
    Ok((name, text))
}

fn files(alloc: Global, case: &Case) -> Result<List<(Name, Name)>, Memory> {
    let mut files = List::make(alloc);
    for (name, text) in case.files {
        push(&mut files, file(alloc, name, text)?)?;
    }
    Ok(files)
}

fn failing(alloc: Global, call: u64) -> Result<List<u64>, Memory> {
    let mut fail = List::make(alloc);
    push(&mut fail, call)?;
    Ok(fail)
}

fn words(alloc: Global, case: &Case) -> Result<List<Name>, Memory> {
    let mut words = List::make(alloc);
    for word in case.words {
        push(&mut words, Name::make(alloc, word.as_bytes())?)?;
    }
    Ok(words)
}

/// The run of the case over a store that reads at most `read` bytes a call, and a sink that takes
/// at most `put`. The store's call of the first number fails, and the sink's of the second, if
/// there is one.
fn run_case(
    alloc: Global,
    case: &Case,
    read: u32,
    put: u32,
    fails: (u64, u64),
) -> Result<Ended, Memory>
    requires read { 1 ≤ read }
    requires put { 1 ≤ put }
{
    let fail = failing(alloc, fails.0)?;
    let mut store = MemStore::short(alloc, files(alloc, case)?, read, fail)?;
    let mut out = MemSink::short(alloc, put, failing(alloc, fails.1)?);
    let code = run(alloc, words(alloc, case)?.slice(), &mut store, &mut out).code;
    Ok(Ended { store, out, code })
}

/// Whether each file of the case is as it was.
fn keeps_files(alloc: Global, case: &Case, store: &MemStore) -> Result<bool, Memory> {
    for (name, text) in case.files {
        if store.bytes(&Name::make(alloc, name.as_bytes())?) != Some(text.as_bytes()) {
            return Ok(false);
        }
    }
    Ok(true)
}

/// Whether of the files that the case writes the first ones are there: whole, as after the other
/// run, except for the last of them, which holds its first half.
fn holds_front(
    alloc: Global,
    case: &Case,
    store: &MemStore,
    whole: &MemStore,
    count: u64,
) -> Result<bool, Memory> {
    let mut left = count;
    for name in case.outputs {
        let name = Name::make(alloc, name.as_bytes())?;
        let text = match whole.bytes(&name) {
            Some(text) if left > 1 => Some(text),
            Some(text) if left == 1 => Some(&text[..text.len() / 2]),
            _ => None,
        };
        if store.bytes(&name) != text {
            return Ok(false);
        }
        left = left.saturating_sub(1);
    }
    Ok(true)
}

/// How a run has to end: its status, the bytes that are printed, and how many of the files that it
/// writes are begun, the last of which holds its first half unless it is `u64::MAX`.
type End<'a> = (u8, &'a [u8], u64);

/// The end where no call fails.
fn whole_end(case: &Case) -> End<'static> {
    (case.code, case.text.as_bytes(), u64::MAX)
}

/// The end where this call of the store fails: nothing is printed, and the files before the one
/// that it writes are whole. After the last call none is left to fail.
fn fault_end(case: &Case, call: u64) -> End<'static> {
    if call > case.calls {
        return whole_end(case);
    }
    let reads = case.calls.saturating_sub(case.outputs.len() as u64);
    (6, &[], call.saturating_sub(reads))
}

/// The end where the put after these many bytes fails: all files are written. After the last byte
/// no put is left to fail.
fn put_end(case: &Case, count: usize) -> End<'static> {
    if count >= case.text.len() {
        return whole_end(case);
    }
    (7, &case.text.as_bytes()[..count], u64::MAX)
}

/// Whether a run ended so, where `whole` is the store after a run without a failing call.
fn is_end(
    alloc: Global,
    case: &Case,
    it: &Ended,
    whole: &MemStore,
    (code, text, begun): End,
) -> Result<bool, Memory> {
    let is_put = it.code == code && it.out.bytes() == text;
    Ok(
        is_put
            && keeps_files(alloc, case, &it.store)?
            && holds_front(alloc, case, &it.store, whole, begun)?,
    )
}

/// Whether the run that `run_case` makes of these ends so.
fn ends(
    alloc: Global,
    case: &Case,
    read: u32,
    put: u32,
    fails: (u64, u64),
    end: End,
) -> Result<bool, Memory>
    requires read { 1 ≤ read }
    requires put { 1 ≤ put }
{
    let whole = run_case(alloc, case, u32::MAX, u32::MAX, (0, 0))?;
    let it = run_case(alloc, case, read, put, fails)?;
    is_end(alloc, case, &it, &whole.store, end)
}

/// The first call of the store that fails and does not end the run as it has to.
fn wrong_fault(alloc: Global, case: &Case) -> Result<Option<u64>, Memory> {
    for call in 1..case.calls.saturating_add(2) {
        let end = fault_end(case, call);
        if !ends(alloc, case, u32::MAX, u32::MAX, (call, 0), end)? {
            return Ok(Some(call));
        }
    }
    Ok(None)
}

/// The first put of at most `step` bytes that fails and does not end the run as it has to.
fn wrong_put(alloc: Global, case: &Case, step: u32) -> Result<Option<u64>, Memory>
    requires { 1 ≤ step }
{
    let mut count = 0usize;
    for call in 1..1000 {
        let end = put_end(case, count);
        if !ends(alloc, case, u32::MAX, step, (0, call), end)? {
            return Ok(Some(call));
        }
        if count >= case.text.len() {
            return Ok(None);
        }
        count = count.saturating_add(step as usize);
    }
    Ok(Some(1000))
}

#[test]
fn each_store_call_fails_in_turn(rt: HostRuntime) -> Result<(), Fail> {
    for (at, case) in CASES.iter().enumerate() {
        assert_eq!(rt; wrong_fault(rt.alloc(), case)?, None, "case {at}");
    }
    Ok(())
}

/// The first case is printed byte by byte, so that its fifth put comes after the first four
/// letters.
#[test]
fn each_put_fails_in_turn(rt: HostRuntime) -> Result<(), Fail> {
    assert_eq!(rt; wrong_put(rt.alloc(), &CASES[0], 1)?, None);
    for (at, case) in CASES.iter().enumerate() {
        assert_eq!(rt; wrong_put(rt.alloc(), case, 16)?, None, "case {at}");
    }
    Ok(())
}

#[test]
fn short_calls_change_nothing(rt: HostRuntime) -> Result<(), Fail> {
    for (at, case) in CASES.iter().enumerate() {
        let is_right = ends(rt.alloc(), case, 7, 1, (0, 0), whole_end(case))?;
        assert!(rt; is_right, "case {at}");
    }
    Ok(())
}
