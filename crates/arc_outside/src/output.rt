//! The trusted edge to the standard output. Its contracts say nothing of what it shows.
ghost use Rattle.std.specs.Prelude.{◌≡◌, ◌<◌, ◌≤◌, None, length, IfOk};

use crate::{Fault, Sink};
use std::io;
use std::io::Write;

/// The standard output. Each piece is flushed, and each error, that of a flush too, raises the
/// count of faults.
#[derive(Drop)]
pub struct StdSink<R> {
    rt: R,
    failure: Option<io::Error>,
    faults: u64,
}

impl<R> StdSink<R> {
    /// The sink over the standard output.
    pub fn make(rt: R) -> Self
        ensures { result.faults ≡ 0 }
    {
        StdSink {
            rt,
            failure: None,
            faults: 0,
        }
    }

    /// The system's error when it last refused a piece.
    pub fn failure(&self) -> Option<io::Error> {
        self.failure
    }
}

/// Writes some of the bytes. A write that takes nothing is an error.
fn print_some<R: Print>(rt: &R, bytes: &[u8]) -> io::Result<usize>
    ensures some { IfOk result (λ n. 0 < n) }
    ensures bound { IfOk result (λ n. n ≤ length bytes.now) }
{
    let mut writer = io::writer(rt);
    let n = writer.write(bytes)?;
    if n == 0 {
        return Err(io::Error::from(io::ErrorKind::WriteZero));
    }
    writer.flush()?;
    Ok(n)
}

impl<R: Print> Sink for StdSink<R> {
    ghost written = { λ s. None };

    ghost faults = { λ s. s.faults };

    fn put(&mut self, bytes: &[u8]) -> Result<usize, Fault> {
        match print_some(&self.rt, bytes) {
            Ok(n) => Ok(n),
            Err(error) => {
                self.failure = Some(error);
                self.faults = self.faults.saturating_add(1);
                Err(Fault::Failed)
            }
        }
    }
}
