//! Messages about a refusal.

use crate::Explainer;
use arc_base::{Kind, LimitKind, Name};
use net_model::{Document, LinkText};
use run_files::{FileRefusal, Limits, Reason};
use run_inputs::read_files;
use run_messages::{
    Shown, Subnets, clash, document_fault, document_item, document_of, edits_of_new_lists, line_at,
    missing_face, wrong_word,
};
use std::io;
use std::rt::Files;

/// Prints a message, if there is one.
fn say(rt: &impl Eprint, said: Option<String>) -> io::Result<()> {
    match said {
        Some(said) => eprintln!(rt; "arcv: {said}"),
        None => Ok(()),
    }
}

impl<'a, R: AllocGlobal + Eprint + Files> Explainer<'a, R> {
    /// Shows the line that a refusal names, and the word that is wrong in it.
    fn explain_line(&mut self, refusal: &FileRefusal) -> io::Result<()> {
        let (rt, number) = (self.rt, refusal.number);
        let Some(text) = self.text(&refusal.name) else {
            return Ok(());
        };
        let Some(line) = line_at(&text, number) else {
            return Ok(());
        };
        eprintln!(rt; "{}:{number}: {}", Shown(refusal.name.bytes()), Shown(line))?;
        if !matches!(refusal.reason, Reason::Kind(Kind::BadWord)) {
            return Ok(());
        }
        match wrong_word(rt.alloc(), &text, number) {
            Some(b"") => eprintln!(rt; "arcv: the line ends too early: a word is missing"),
            Some(word) => eprintln!(rt; "arcv: wrong word: {}", Shown(word)),
            None => Ok(()),
        }
    }

    /// The subnets of the router files of a document up to the refused one.
    fn subnets(&mut self, doc: &Document, refused: &Name) -> Option<Subnets> {
        let alloc = self.rt.alloc();
        let mut subnets = Subnets::none(alloc);
        for name in doc.routers.slice() {
            let text = self.text(name)?;
            subnets.add(alloc, &text).ok()?;
            if name.is(refused.bytes()) {
                break;
            }
        }
        Some(subnets)
    }

    /// The document that the words of the run name.
    fn document_of_run(&mut self) -> Option<Document> {
        let command = self.command()?;
        self.document(document_of(&command)?)
    }

    /// The message about the two interfaces whose subnets overlap.
    fn overlap(&mut self, refusal: &FileRefusal) -> Option<String> {
        let doc = self.document_of_run()?;
        let subnets = self.subnets(&doc, &refusal.name)?;
        subnets.overlap(self.rt.alloc(), &doc, refusal.number)
    }

    /// The message about an end of a link, if its router lacks the interface.
    fn missing_end(&mut self, doc: &Document, router: &Name, face: &Name) -> Option<String> {
        for name in doc.routers.slice() {
            let text = self.text(name)?;
            if let Some(said) = missing_face(self.rt.alloc(), &text, router, face) {
                return Some(said);
            }
        }
        None
    }

    /// Names the interfaces of the link that their routers' files lack.
    fn explain_ends(&mut self, refusal: &FileRefusal) -> io::Result<()> {
        let Some(doc) = self.document(&refusal.name) else {
            return Ok(());
        };
        let place = (refusal.number as usize).wrapping_sub(1);
        let Some(
            LinkText {
                a_router,
                a_face,
                b_router,
                b_face,
                ..
            },
        ) = doc.links.slice().get(place)
        else {
            return Ok(());
        };
        for (router, face) in [(a_router, a_face), (b_router, b_face)] {
            if let Some(said) = self.missing_end(&doc, router, face) {
                eprintln!(self.rt; "arcv: {said}")?;
            }
        }
        Ok(())
    }

    /// The message about the file that would have been overwritten.
    fn overwritten(&mut self, document: &Name) -> Option<String> {
        let command = self.command()?;
        let doc = self.document(document);
        let routers = match &doc {
            Some(doc) => doc.routers.slice(),
            None => &[],
        };
        clash(self.rt.alloc(), &command, routers)
    }

    /// The message about where most of the edits come from.
    fn source_of_edits(&mut self, document: &Name) -> Option<String> {
        let alloc = self.rt.alloc();
        let doc = self.whole_document(document)?;
        let input = read_files(alloc, document, doc, &[], Limits::Editing, self.store).ok()?;
        edits_of_new_lists(alloc, &input.net, &input.doc.policies)
    }

    /// Shows the link or policy of the document that a refusal names.
    fn explain_item(&mut self, refusal: &FileRefusal, list: &str) -> io::Result<()> {
        let (rt, number) = (self.rt, refusal.number);
        let Some(text) = self.text(&refusal.name) else {
            return Ok(());
        };
        let Some(item) = document_item(rt.alloc(), &text, list, number)? else {
            return Ok(());
        };
        let what = if list == "links" { "link" } else { "policy" };
        let (name, item) = (Shown(refusal.name.bytes()), Shown(item.as_bytes()));
        eprintln!(rt; "{name}, {what} {number}: {item}")
    }

    /// Says why a text is no document.
    fn explain_form(&mut self, name: &Name) -> io::Result<()> {
        let rt = self.rt;
        let Some(text) = self.text(name) else {
            return Ok(());
        };
        let fault = document_fault(rt.alloc(), &text)?;
        eprintln!(rt; "arcv: {} {fault}", Shown(name.bytes()))
    }

    /// Explains what is refused, and where.
    pub fn explain_refusal(&mut self, refusal: &FileRefusal) -> io::Result<()> {
        let (rt, name) = (self.rt, &refusal.name);
        let Reason::Kind(kind) = refusal.reason else {
            return self.explain_line(refusal);
        };
        let is_of_words = self.words.iter().any(|word| word.is(name.bytes()));
        match kind {
            Kind::Missing if is_of_words => Ok(()),
            Kind::Missing => {
                let why = "which is not in the folder where the command runs";
                eprintln!(rt; "arcv: the document names {}, {why}", Shown(name.bytes()))
            }
            Kind::DocumentForm => self.explain_form(name),
            Kind::LinkFace => {
                self.explain_item(refusal, "links")?;
                self.explain_ends(refusal)
            }
            Kind::LinkSubnets => self.explain_item(refusal, "links"),
            Kind::AdjacencyForm if is_of_words => self.explain_item(refusal, "links"),
            Kind::Endpoint | Kind::Limit(LimitKind::Failures, _) => {
                self.explain_item(refusal, "policies")
            }
            Kind::OutputName => say(rt, self.overwritten(name)),
            Kind::Limit(LimitKind::Edits, _) => say(rt, self.source_of_edits(name)),
            Kind::TooLong | Kind::Limit(_, _) | Kind::UnknownRouter => Ok(()),
            Kind::Overlap => {
                self.explain_line(refusal)?;
                say(rt, self.overlap(refusal))
            }
            _ => self.explain_line(refusal),
        }
    }
}
