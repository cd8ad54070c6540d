//! The line on a terminal that shows what a run is doing once it takes longer than a second. It is
//! overwritten in place, and erased before the run writes or prints anything.

use run_progress::{Listener, Work};
use std::alloc::AllocError;
use std::env::VarError;
use std::io::IsTerminal;
use std::time::{Duration, Instant};
use std::{env, io};

/// How long a run takes before its first line, in milliseconds.
const FIRST_LINE_AFTER: u64 = 1_000;

/// How long a line stays before the next one, in milliseconds.
const NEXT_LINE_AFTER: u64 = 100;

/// The progress line of a run: when it was last written, or, before the first time, when the run
/// began; and the price of the best solution so far.
#[derive(Drop)]
pub struct ProgressLine<'a> {
    rt: &'a HostRuntime,
    since: Option<Instant>,
    is_shown: bool,
    best: Option<u64>,
}

/// Whether standard error is a terminal, and `ARCV_QUIET` is not set.
fn is_wanted(rt: &HostRuntime) -> bool {
    rt.stderr().is_terminal() && matches!(env::var(rt, "ARCV_QUIET"), Err(VarError::NotPresent))
}

impl<'a> ProgressLine<'a> {
    /// The line of a run that begins now. It is never written if it is not wanted.
    pub fn make(rt: &'a HostRuntime) -> ProgressLine<'a> {
        let since = if is_wanted(rt) {
            Instant::now(rt).ok()
        } else {
            None
        };
        ProgressLine {
            rt,
            since,
            is_shown: false,
            best: None,
        }
    }

    /// Whether it is time to write the line.
    fn is_due(&self) -> bool {
        let Some(since) = self.since else {
            return false;
        };
        let pause = if self.is_shown {
            NEXT_LINE_AFTER
        } else {
            FIRST_LINE_AFTER
        };
        matches!(since.elapsed(self.rt), Ok(time) if time >= Duration::from_millis(pause))
    }

    /// The text of the line for the work.
    fn text(&self, work: Work) -> Result<String, AllocError> {
        let alloc = self.rt.alloc();
        match (work, self.best) {
            (Work::Reading, _) => String::from_str(alloc, "reading"),
            (Work::Judging { place, count }, _) => {
                let number = place.saturating_add(1);
                format!(in alloc; "judging policy {number} of {count}")
            }
            (Work::Searching { conflicts }, Some(price)) => {
                format!(in alloc; "searching: {conflicts} conflicts, best price so far {price}")
            }
            (Work::Searching { conflicts }, None) => {
                format!(in alloc; "searching: {conflicts} conflicts")
            }
            (Work::Found { price }, _) => format!(in alloc; "searching: best price so far {price}"),
            (Work::Ending, _) => String::from_str(alloc, "writing"),
        }
    }

    /// Writes the line over the previous one.
    fn show(&mut self, work: Work) -> io::Result<()> {
        let text = self.text(work)?;
        self.is_shown = true;
        eprint!(self.rt; "\rarcv: {text}\x1b[K")?;
        self.since = Some(Instant::now(self.rt)?);
        Ok(())
    }

    /// Erases the line, and writes none after that.
    pub fn erase(&mut self) -> io::Result<()> {
        self.since = None;
        if self.is_shown {
            self.is_shown = false;
            eprint!(self.rt; "\r\x1b[K")?;
        }
        Ok(())
    }
}

impl<'a> Listener for ProgressLine<'a> {
    fn heard(&mut self, work: Work) {
        match work {
            Work::Ending => {
                let _erased = self.erase();
            }
            Work::Found { price } => self.best = Some(price),
            _ => {}
        }
        if self.is_due() {
            let _shown = self.show(work);
        }
    }
}
