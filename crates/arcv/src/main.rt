//! The command `arcv`: `run_telling` over the files of the system and its standard output, with the
//! words that follow the program's name. The exit status is the run's. Details of a run go to
//! standard error, and on a terminal a line while it takes long; they change neither output nor
//! status.
#![tactic(auto)]

mod progress;

use crate::progress::ProgressLine;
use arc_base::{List, Memory, Name};
use arc_outside::{DiskStore, StdSink};
use arc_run::{Ended, Outcome, run_telling};
use run_explanations::Explainer;
use std::alloc::Global;
use std::process::ExitCode;
use std::{env, io};

/// The words that follow the program's name. If one of them is not UTF-8 there are none, and so
/// they match no command.
fn words(rt: &HostRuntime, alloc: Global) -> Result<List<Name>, Memory> {
    let mut words = List::make(alloc);
    let args = match env::args(rt) {
        Ok(args) => args,
        Err(error) if error.kind() == io::ErrorKind::OutOfMemory => return Err(Memory),
        Err(_) => return Ok(words),
    };
    for word in args.skip(1) {
        if words.len() < u32::MAX {
            words.push(Name::make(alloc, word.as_bytes())?)?;
        }
    }
    Ok(words)
}

/// Explains how a run ended, beyond its output and status.
fn explain(explainer: &mut Explainer<'_, HostRuntime>, ended: &Ended) -> io::Result<()> {
    let rt = explainer.rt;
    match (ended.status.code, &ended.outcome) {
        (0 | 1, Some(Outcome::Done(done))) => explainer.explain_answer(done),
        (4, _) => explainer.explain_words(),
        (5, Some(Outcome::Refused(refusal))) => explainer.explain_refusal(refusal),
        (6, _) => explainer.explain_failure(),
        (7, _) => eprintln!(rt; "arcv: cannot write to standard output"),
        (8, _) => eprintln!(rt; "arcv: out of memory"),
        _ => Ok(()),
    }
}

fn main(rt: HostRuntime) -> ExitCode {
    let alloc = rt.alloc();
    let Ok(words) = words(&rt, alloc) else {
        return ExitCode::from(8);
    };
    let mut store = DiskStore::make(rt, alloc);
    let mut out = StdSink::make(rt);
    let mut line = ProgressLine::make(&rt);
    let ended = run_telling(alloc, words.slice(), &mut store, &mut out, &mut line);
    let _erased = line.erase();
    let mut explainer = Explainer {
        rt: &rt,
        words: words.slice(),
        store: &mut store,
    };
    let _said = explain(&mut explainer, &ended);
    ExitCode::from(ended.status.code)
}
