//! Messages about an answer: whether a yes of it holds for any forwarding, and at which policy a
//! certificate is rejected.

use crate::Explainer;
use arc_base::Name;
use arc_base::limits::EDIT_FILE_LIMIT;
use command_words::Command;
use forwarding_notes::{edits_close, holds_for_any};
use run_files::Done;
use run_messages::{Blocks, has_barred, is_barred, policy_words, rejection_of};
use std::alloc::AllocError;
use std::io;
use std::rt::Files;

const HOLDS: &str = "OSPF runs everywhere here, so each yes of blocked or through \
    holds for any forwarding over these interfaces and lists";

const CLOSES: &str = "after these edits OSPF no longer runs everywhere, so a yes of \
    blocked or through then holds for its routes, and no longer for any forwarding";

impl<'a, R: AllocGlobal + Eprint + Files> Explainer<'a, R> {
    /// Says that the yeses of a report on blocked or through policies hold for any forwarding, if
    /// they do.
    fn explain_yes(&mut self, document: &Name) -> io::Result<()> {
        let Some(doc) = self.whole_document(document) else {
            return Ok(());
        };
        match holds_for_any(self.rt.alloc(), document, doc, self.store) {
            Ok(true) => eprintln!(self.rt; "arcv: {HOLDS}"),
            _ => Ok(()),
        }
    }

    /// The lines of edits in a repair's certificate; none in any other file.
    fn edit_lines(&mut self, certificate: &Name) -> Result<Vec<u8>, AllocError> {
        let mut text = Vec::new(self.rt.alloc());
        let Some(mut pieces) = self.pieces(certificate) else {
            return Ok(text);
        };
        for number in 1..u64::MAX {
            match self.line(&mut pieces, certificate) {
                Some(b"arc-repair 1") if number == 1 => {}
                Some(_) if number == 2 => {}
                Some(line) if number > 2 && line.starts_with(b"edit ") => {
                    text.extend_from_slice(line)?;
                    text.push(b'\n')?;
                }
                _ => break,
            }
        }
        Ok(text)
    }

    /// Whether a certificate is a report with a yes of a blocked or through policy.
    fn is_barred_report(&mut self, certificate: &Name) -> bool {
        let Some(mut pieces) = self.pieces(certificate) else {
            return false;
        };
        for number in 1..u64::MAX {
            match self.line(&mut pieces, certificate) {
                Some(b"arc-report 1") if number == 1 => {}
                Some(line) if number > 1 && is_barred(line) => return true,
                Some(_) if number > 1 => {}
                _ => return false,
            }
        }
        false
    }

    /// Says that the session edits of a certificate keep its yeses from holding for any forwarding,
    /// if they do.
    fn explain_edits(&mut self, document: &Name, certificate: &Name) -> io::Result<()> {
        let text = self.edit_lines(certificate)?;
        let mut lines = text.split(|byte| *byte == b'\n');
        if !lines.any(|line| line.starts_with(b"edit session "))
            || text.len() as u64 > EDIT_FILE_LIMIT
        {
            return Ok(());
        }
        let Some(doc) = self.whole_document(document) else {
            return Ok(());
        };
        match edits_close(self.rt.alloc(), document, &doc, &text, self.store) {
            Ok(true) => eprintln!(self.rt; "arcv: {CLOSES}"),
            _ => Ok(()),
        }
    }

    /// The place of the policy to whose block a rejected line belongs.
    fn rejected_policy(&mut self, certificate: &Name, text: &[u8]) -> Option<u32> {
        let (rejected, word) = rejection_of(text)?;
        let mut blocks = Blocks::none();
        let mut pieces = self.pieces(certificate)?;
        for number in 1..u64::MAX {
            let line = self.line(&mut pieces, certificate)?;
            if number == rejected {
                return blocks.policy(line, word)?.checked_sub(1);
            }
            if !blocks.take(line) {
                break;
            }
        }
        None
    }

    /// Names the policy at which a certificate is rejected, if it is at one.
    fn explain_rejection(
        &mut self,
        document: &Name,
        certificate: &Name,
        text: &[u8],
    ) -> io::Result<()> {
        let Some(place) = self.rejected_policy(certificate, text) else {
            return Ok(());
        };
        let Some(doc) = self.document(document) else {
            return Ok(());
        };
        match doc.policies.get(place) {
            Some(policy) => {
                let asks = policy_words(self.rt.alloc(), policy)?;
                eprintln!(self.rt; "arcv: policy {}: {asks}", u64::from(place) + 1)
            }
            None => Ok(()),
        }
    }

    /// Explains an answer, beyond its output and status.
    pub fn explain_answer(&mut self, done: &Done) -> io::Result<()> {
        let text = done.text.bytes();
        match self.command() {
            Some(Command::Verify(document)) if has_barred(text) => self.explain_yes(&document),
            Some(Command::Repair(words)) if done.status == 0 => {
                self.explain_edits(&words.document, &words.proof)
            }
            Some(Command::Check(document, certificate)) if done.status == 0 => {
                if self.is_barred_report(&certificate) {
                    return self.explain_yes(&document);
                }
                self.explain_edits(&document, &certificate)
            }
            Some(Command::Check(document, certificate)) => {
                self.explain_rejection(&document, &certificate, text)
            }
            _ => Ok(()),
        }
    }
}
