//! The words of a run and its files, which are read once more for an explanation.
ghost use Rattle.std.specs.Prelude.{◌≤◌};

use arc_base::Name;
use arc_base::limits::{PROOF_LIMIT, ROUTER_FILE_LIMIT};
use arc_outside::{DiskStore, Pieces, read_all};
use command_words::{Command, read_words};
use net_model::Document;
use run_inputs::read_document;
use std::rt::Files;
use std::{fs, str};

/// What explains how a run ended: its words, and the files of the system. Messages go to standard
/// error.
#[derive(Drop)]
pub struct Explainer<'a, R: Files> {
    pub rt: &'a R,
    pub words: &'a [Name],
    pub store: &'a mut DiskStore<R>,
}

impl<'a, R: AllocGlobal + Files> Explainer<'a, R> {
    ghost use Rattle.net_doc.specs.Documents.{IsWellFormed};
    ghost use Rattle.std.specs.Prelude.{◌≤◌, length, IfSome};

    /// The command that the words match.
    pub(crate) fn command(&self) -> Option<Command> {
        read_words(self.rt.alloc(), self.words).ok()?
    }

    /// Whether a file can be read a second time. A pipe cannot: reading it again would wait for
    /// ever.
    fn is_plain(&self, name: &Name) -> bool {
        let Ok(path) = str::from_utf8(name.bytes()) else {
            return false;
        };
        match fs::metadata(self.rt, path) {
            Ok(found) => found.is_file(),
            Err(_) => false,
        }
    }

    /// The text of a file, if it can be read again.
    pub(crate) fn text(&mut self, name: &Name) -> Option<Vec<u8>>
        ensures { IfSome result (λ text. length text.items ≤ ROUTER_FILE_LIMIT) }
    {
        if !self.is_plain(name) {
            return None;
        }
        read_all(self.rt.alloc(), self.store, name, ROUTER_FILE_LIMIT).ok()
    }

    /// A document, if it can be read again.
    pub(crate) fn document(&mut self, name: &Name) -> Option<Document>
        ensures { IfSome result IsWellFormed }
    {
        if !self.is_plain(name) {
            return None;
        }
        read_document(self.rt.alloc(), name, self.store).ok()
    }

    /// A document, if it and its router files can be read again.
    pub(crate) fn whole_document(&mut self, name: &Name) -> Option<Document>
        ensures { IfSome result IsWellFormed }
    {
        let doc = self.document(name)?;
        let mut names = doc.routers.slice().iter();
        if !names.all(|name| self.is_plain(name)) {
            return None;
        }
        Some(doc)
    }

    /// The pieces of a file whose lines are read one by one, if it can be read again.
    pub(crate) fn pieces(&self, name: &Name) -> Option<Pieces> {
        if !self.is_plain(name) {
            return None;
        }
        Some(Pieces::make(self.rt.alloc(), PROOF_LIMIT))
    }

    /// The next line of a file, until its end or a failure.
    pub(crate) fn line<'b>(&mut self, pieces: &'b mut Pieces, name: &Name) -> Option<&'b [u8]> {
        if pieces.failed() {
            return None;
        }
        match pieces.next(self.store, name) {
            Ok(true) => Some(pieces.line()),
            _ => None,
        }
    }
}
