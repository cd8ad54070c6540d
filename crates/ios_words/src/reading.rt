//! What the words of a line give by a row that matches them, or which of them is faulty.
ghost use Rattle.ios_words.specs.Readings.{fault_at};
ghost use Rattle.std.specs.Prelude.{◌≡◌};

use crate::found::Found;
use crate::kinds::{Flaw, WordFault};
use crate::prefixes::{holding, whole};
use crate::protocols::has_ports;
use crate::rows::{Form, Part};
use crate::words::Words;

/// Where a line is read.
#[derive(Clone, Copy, Debug)]
pub(crate) struct Reader<'a> {
    /// The words that are left.
    pub(crate) words: Words<'a>,
    /// How many came before them.
    pub(crate) taken: u32,
    /// What those gave.
    pub(crate) found: Found<'a>,
}

impl<'a> Reader<'a> {
    ghost use Rattle.ios_words.specs.Readings.{place, this_word, verdict, passed, stands_alone};
    ghost use Rattle.ios_words.specs.Readings.{width, side, step};
    ghost use Rattle.ios_words.specs.Readings.{read_parts, finish, start};
    ghost use Rattle.ios_words.specs.Rows.{Source, Ports, piece_of};
    ghost use Rattle.ios_words.specs.Views.{words_of, state_of, next_state, line_values};
    ghost use Rattle.std.specs.Prelude.{◌≡◌, ◌+◌, ◌*◌, ◌<◌, ◌≤◌, map, length, IfOk};

    /// A line that is to be read in a block, extended or not.
    pub(crate) fn start(words: Words<'a>, extended: bool) -> Reader<'a>
        ensures state { state_of result ≡ start extended (words_of words.entry) }
        ensures taken { result.taken ≡ 0 }
    {
        Reader {
            words,
            taken: 0,
            found: Found::nothing(extended),
        }
    }

    /// Reads these parts.
    pub(crate) fn read_parts(self, parts: &[Part]) -> Result<Reader<'a>, WordFault>
        requires few { length parts.now ≤ 100 }
        requires first { self.taken ≡ 0 }
        ensures state { next_state result
            ≡ read_parts (map piece_of parts.now) (state_of self.entry) }
        ensures taken { IfOk result (λ reader. reader.taken ≤ 1000) }
    {
        let mut reader = self;
        for part in parts {
            reader = reader.step(*part)?;
        }
        Ok(reader)
    }

    /// What the line gives, where no word is left.
    pub(crate) fn finish(self) -> Result<Found<'a>, WordFault>
        requires { self.taken ≤ 1000 }
        ensures { line_values result ≡ finish (next_state (Ok self.entry)) }
    {
        match self.words.split() {
            Some(_) => Err(WordFault::BadWord(self.taken + 1)),
            None => Ok(self.found),
        }
    }

    /// Reads a part.
    fn step(self, part: Part) -> Result<Reader<'a>, WordFault>
        requires { self.taken ≤ 1000 }
        ensures state { next_state result ≡ step (piece_of part) (state_of self.entry) }
        ensures taken { IfOk result (λ reader. reader.taken ≤ self.entry.taken + 3) }
    {
        match part {
            Part::Word(word) => self.this_word(word),
            Part::Verdict => self.verdict(),
            Part::Place(form) => self.place(form),
            Part::Option(word, form) if self.words.begin_with(word) => self.passed().place(form),
            Part::Option(_, _) => Ok(self),
            Part::Flag(word) if self.words.begin_with(word) => Ok(self.passed()),
            Part::Flag(_) => Ok(self),
            Part::EntryNumber if self.words.begin_entry() => Ok(self),
            Part::EntryNumber => self.place(Form::Order(2147483647)),
            Part::Protocol if self.found.extended => self.place(Form::Protocol),
            Part::Protocol => Ok(self),
            Part::Source => self.source(),
            Part::Destination if self.found.extended => self.side(true),
            Part::Destination => Ok(self),
            Part::Ports => self.ports(),
            Part::Anything => Ok(Reader {
                words: self.words.none(),
                ..self
            }),
        }
    }

    /// Reads a word of the form.
    fn place(self, form: Form) -> Result<Reader<'a>, WordFault>
        requires { self.taken ≤ 2000 }
        ensures state { next_state result ≡ place form (state_of self.entry) }
        ensures taken { IfOk result (λ reader. reader.taken ≤ self.entry.taken + 1) }
    {
        let taken = self.taken + 1;
        let Some((word, words)) = self.words.split() else {
            return Err(WordFault::BadWord(taken));
        };
        match self.found.with(form, word) {
            Ok(found) => Ok(Reader {
                words,
                taken,
                found,
            }),
            Err(flaw) => Err(fault_at(taken, flaw)),
        }
    }

    /// Reads this word.
    fn this_word(self, word: &[u8]) -> Result<Reader<'a>, WordFault>
        requires { self.taken ≤ 2000 }
        ensures state { next_state result ≡ this_word word.now (state_of self.entry) }
        ensures taken { IfOk result (λ reader. reader.taken ≤ self.entry.taken + 1) }
    {
        if self.words.begin_with(word) {
            Ok(self.passed())
        } else {
            Err(WordFault::BadWord(self.taken + 1))
        }
    }

    /// Reads `permit` or `deny`.
    fn verdict(self) -> Result<Reader<'a>, WordFault>
        requires { self.taken ≤ 2000 }
        ensures state { next_state result ≡ verdict (state_of self.entry) }
        ensures taken { IfOk result (λ reader. reader.taken ≤ self.entry.taken + 1) }
    {
        let mut reader = self.passed();
        reader.found.permit = self.words.begin_with(b"permit");
        if self.words.begin_with_verdict() {
            Ok(reader)
        } else {
            Err(WordFault::BadWord(reader.taken))
        }
    }

    /// Passes over the next word.
    fn passed(self) -> Reader<'a>
        requires { self.taken ≤ 2000 }
        ensures state { state_of result ≡ passed (state_of self.entry) }
        ensures taken { result.taken ≡ self.entry.taken + 1 }
    {
        Reader {
            words: self.words.rest(),
            taken: self.taken + 1,
            found: self.found,
        }
    }

    /// Reads where the packets of an entry come from.
    fn source(self) -> Result<Reader<'a>, WordFault>
        requires { self.taken ≤ 1000 }
        ensures state { next_state result ≡ step Source (state_of self.entry) }
        ensures taken { IfOk result (λ reader. reader.taken ≤ self.entry.taken + 2) }
    {
        let reader = self.side(self.found.extended)?;
        let found = Found {
            from: reader.found.to,
            to: whole(),
            ..reader.found
        };
        Ok(Reader { found, ..reader })
    }

    /// Reads the destination ports, if the protocol has ports and words of them come here.
    fn ports(self) -> Result<Reader<'a>, WordFault>
        requires { self.taken ≤ 1000 }
        ensures state { next_state result ≡ step Ports (state_of self.entry) }
        ensures taken { IfOk result (λ reader. reader.taken ≤ self.entry.taken + 3) }
    {
        if !has_ports(self.found.services.protocol()) {
            return Ok(self);
        }
        if self.words.begin_with(b"eq") {
            return self.passed().place(Form::Port);
        }
        if !self.words.begin_with(b"range") {
            return Ok(self);
        }
        self.passed().place(Form::FirstPort)?.place(Form::LastPort)
    }

    /// Reads one side of an entry.
    fn side(self, extended: bool) -> Result<Reader<'a>, WordFault>
        requires { self.taken ≤ 1000 }
        ensures state { next_state result ≡ side extended (state_of self.entry) }
        ensures taken { IfOk result (λ reader. reader.taken ≤ self.entry.taken + 2) }
    {
        if self.words.begin_with(b"any") {
            let found = Found {
                to: whole(),
                ..self.found
            };
            return Ok(Reader {
                found,
                ..self.passed()
            });
        }
        if self.words.begin_with(b"host") {
            return self.passed().place(Form::Host);
        }
        self.place(Form::Address)?.width(extended)
    }

    /// Reads the wildcard of an address, or takes the address for one host where that is allowed.
    fn width(self, extended: bool) -> Result<Reader<'a>, WordFault>
        requires { self.taken ≤ 1001 }
        ensures state { next_state result ≡ width extended (state_of self.entry) }
        ensures taken { IfOk result (λ reader. reader.taken ≤ self.entry.taken + 1) }
    {
        if !extended && self.stands_alone() {
            let found = Found {
                to: holding(self.found.address, 32),
                ..self.found
            };
            return Ok(Reader { found, ..self });
        }
        self.place(Form::Wildcard)
    }

    /// Whether no wildcard follows.
    fn stands_alone(self) -> bool
        ensures { result ≡ stands_alone (words_of self.entry.words) }
    {
        match self.words.split() {
            Some((word, _)) => word == b"log".as_slice(),
            None => true,
        }
    }
}

/// What a flaw of the word at this place says of the line.
fn fault_at(place: u32, flaw: Flaw) -> WordFault
    ensures { result ≡ fault_at place flaw }
{
    match flaw {
        Flaw::Amiss => WordFault::BadWord(place),
        Flaw::Scattered => WordFault::WildcardNotPrefix,
    }
}
