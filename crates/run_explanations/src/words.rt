//! Messages about words that match no command.

use crate::Explainer;
use command_words::{command_forms, form_named};
use run_messages::{Shown, words_fault};
use std::rt::{Env, Files};
use std::{env, io, str};

/// The version of the program, as in CHANGELOG.md.
const VERSION: &str = "1.1.0";

impl<'a, R: AllocGlobal + Env + Eprint + Files> Explainer<'a, R> {
    /// Prints the forms of all commands, and what their words mean.
    fn explain_commands(&self) -> io::Result<()> {
        let rt = self.rt;
        for form in command_forms() {
            eprintln!(rt; "arcv {form}\n    {}", form.meaning)?;
        }
        eprintln!(rt; "The manual is docs/manual.md beside the sources.")
    }

    /// Says that the first word names no command, and which one may be meant: one whose name begins
    /// with its first three letters.
    fn explain_name(&self, word: &[u8]) -> io::Result<()> {
        let rt = self.rt;
        eprint!(rt; "arcv: no command is named {}", Shown(word))?;
        let front = word.get(..3).unwrap_or(b"?");
        let mut forms = command_forms().iter();
        match forms.find(|form| form.name.as_bytes().starts_with(front)) {
            Some(form) => eprintln!(rt; "; is it {}?", form.name),
            None => eprintln!(rt; ""),
        }
    }

    /// Says what is wrong with words that match no command, and the form of the command that the
    /// first of them names.
    pub fn explain_words(&self) -> io::Result<()> {
        let rt = self.rt;
        let Some(command) = self.words.first() else {
            return match env::args(rt) {
                Ok(_) => eprintln!(rt; "arcv: a command is missing"),
                Err(_) => eprintln!(rt; "arcv: a word is not UTF-8"),
            };
        };
        match command.bytes() {
            b"--help" | b"-h" | b"help" => return self.explain_commands(),
            b"--version" | b"-V" | b"version" => return eprintln!(rt; "arcv {VERSION}"),
            _ => {}
        }
        let name = str::from_utf8(command.bytes()).unwrap_or("");
        let Some(form) = form_named(name) else {
            return self.explain_name(command.bytes());
        };
        if let Some(fault) = words_fault(rt.alloc(), form, self.words) {
            eprintln!(rt; "arcv: {fault}")?;
        }
        eprintln!(rt; "usage: arcv {form}\nwhere {}", form.meaning)
    }
}
