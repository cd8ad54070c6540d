//! Messages about files that could not be read or written.

use crate::Explainer;
use arc_outside::Operation;
use run_messages::Shown;
use std::io;
use std::rt::Files;

impl<'a, R: Eprint + Files> Explainer<'a, R> {
    /// Says which file could not be read or written, and the system's reason.
    pub fn explain_failure(&self) -> io::Result<()> {
        let rt = self.rt;
        let Some(failure) = self.store.failure() else {
            return eprintln!(rt; "arcv: a file could not be read or written");
        };
        let operation = match failure.operation {
            Operation::Reading => "read",
            Operation::Writing => "write",
        };
        eprint!(rt;
            "arcv: cannot {operation} {}: ",
            Shown(failure.name.bytes())
        )?;
        match &failure.read_as {
            Some(name) => {
                let name = Shown(name.bytes());
                eprintln!(rt; "{name} was read in this run, and is not written over")
            }
            None => eprintln!(rt; "{}", failure.error),
        }
    }
}
