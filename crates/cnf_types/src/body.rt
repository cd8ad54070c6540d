//! The clauses of a DIMACS text, word by word and line by line.
ghost use Rattle.arc_base.specs.TextLines.{lines};
ghost use Rattle.arc_base.specs.WordNumbers.{number};
ghost use Rattle.arc_base.specs.Words.{words};
ghost use Rattle.cnf_types.specs.Dimacs.{is_bad_word, line_numbers, first_bad, content, numbers};
ghost use Rattle.cnf_types.specs.Dimacs.{pieces};
ghost use Rattle.cnf_types.specs.Progress.{pieces_after, IsFirstBad};
ghost use Rattle.std.specs.List.{list_any};
ghost use Rattle.std.specs.Prelude.{◌≡◌, ◌+◌, ◌-◌, ◌<◌, ◌≤◌, ◌^◌, ◌++◌, [], ◌∷◌, ℤ, List as Items};
ghost use Rattle.std.specs.Prelude.{length, IsFalse, IsTrue, IfOk, IfErr, IsErrOf, OnOk, None};
ghost use Rattle.std.specs.Prelude.{unsigned_abs};

use crate::faults::CnfFault;
use crate::header::is_comment;
use crate::literal::Lit;
use crate::sinks::ClauseSink;
use arc_base::{Memory, first_line, next_word, number, without_return};
use std::alloc::Global;

/// Why a word is not taken.
#[derive(Clone, Copy, Debug, PartialEq, Eq)]
pub(crate) enum WordFault {
    BadNumber,
    Memory,
}

impl From<Memory> for WordFault {
    ghost use Rattle.cnf_types.specs.declared.body.WordFault.TheVariants.{Memory};

    ghost from_gives = { λ _ fault. fault ≡ Memory };

    fn from(_memory: Memory) -> WordFault {
        WordFault::Memory
    }
}

/// What took the clauses so far, and the literals of the one that is not closed, in room that is
/// used again for each clause.
#[derive(Debug, Drop)]
pub(crate) struct Body<S> {
    pub vars: u64,
    pub sink: S,
    pub unclosed: Vec<Lit>,
}

impl<S: ClauseSink + Drop> Body<S> {
    /// Takes a literal, or closes the clause at 0.
    fn take_number(&mut self, alloc: Global, number: i64) -> Result<(), Memory>
        requires size { unsigned_abs number < 2 ^ 63 }
        requires room { length (S.taken self.old.sink) < 2 ^ 32 - 1 }
        ensures pieces { OnOk result ((more : Items ℤ) →
            pieces_after (S.taken self.new.sink) self.new.unclosed.items more
            ≡ pieces_after (S.taken self.old.sink) self.old.unclosed.items (number ∷ more)) }
        ensures clauses { length (S.taken self.new.sink) ≤ length (S.taken self.old.sink) + 1 }
        ensures vars { self.new.vars ≡ self.old.vars }
    {
        if number != 0 {
            let lit = Lit::make(number.unsigned_abs(), number > 0);
            self.unclosed.push(lit)?;
        } else {
            self.sink.take(alloc, &self.unclosed)?;
            self.unclosed.clear();
        }
        Ok(())
    }

    /// Takes a word: a number of at most `vars`, whatever its sign.
    fn take_word(&mut self, alloc: Global, word: &[u8]) -> Result<(), WordFault>
        requires limit { self.old.vars < 2 ^ 63 }
        requires room { length (S.taken self.old.sink) < 2 ^ 32 - 1 }
        ensures number { OnOk result (IsFalse (is_bad_word self.old.vars word.now)) }
        ensures pieces { OnOk result ((more : Items ℤ) →
            pieces_after (S.taken self.new.sink) self.new.unclosed.items more
            ≡ pieces_after (S.taken self.old.sink) self.old.unclosed.items
            (line_numbers self.old.vars (word.now ∷ []) ++ more)) }
        ensures bad { IsErrOf result WordFault.BadNumber →
            IsTrue (is_bad_word self.old.vars word.now) }
        ensures clauses { length (S.taken self.new.sink) ≤ length (S.taken self.old.sink) + 1 }
        ensures vars { self.new.vars ≡ self.old.vars }
    {
        let Some(number) = number(word, self.vars) else {
            return Err(WordFault::BadNumber);
        };
        self.take_number(alloc, number)?;
        Ok(())
    }

    /// Takes the words of a line. The sink has room for a clause for each byte of it.
    fn take_words(&mut self, alloc: Global, line: &[u8]) -> Result<(), WordFault>
        requires limit { self.old.vars < 2 ^ 63 }
        requires room { length (S.taken self.old.sink) + length line.now < 2 ^ 32 }
        ensures numbers { OnOk result
            (IsFalse (list_any (is_bad_word self.old.vars) (words line.now))) }
        ensures pieces { OnOk result ((more : Items ℤ) →
            pieces_after (S.taken self.new.sink) self.new.unclosed.items more
            ≡ pieces_after (S.taken self.old.sink) self.old.unclosed.items
            (line_numbers self.old.vars (words line.now) ++ more)) }
        ensures bad { IsErrOf result WordFault.BadNumber →
            IsTrue (list_any (is_bad_word self.old.vars) (words line.now)) }
        ensures clauses { length (S.taken self.new.sink)
            ≤ length (S.taken self.old.sink) + length line.now }
        ensures vars { self.new.vars ≡ self.old.vars }
    {
        let mut rest = line;
        while let Some((word, after)) = next_word(rest) {
            self.take_word(alloc, word)?;
            rest = after;
        }
        Ok(())
    }
}

/// Hands the clauses in the lines of a text that follow the header to a sink, and gives the number
/// of the last line. `before` lines precede them.
pub(crate) fn read_lines<S: ClauseSink + Drop>(
    alloc: Global,
    vars: u64,
    before: u32,
    text: &[u8],
    sink: S,
) -> Result<(Body<S>, u32), CnfFault>
    requires limit { vars < 2 ^ 63 }
    requires size { before + length text.now < 2 ^ 32 }
    requires empty { S.taken sink ≡ [] }
    ensures numbers { OnOk result (first_bad vars (content before (lines text.now)) ≡ None) }
    ensures pieces { IfOk result (λ found.
        pieces_after (S.taken found.0.sink) found.0.unclosed.items []
        ≡ pieces (numbers vars (content before (lines text.now)) ++ [])) }
    ensures last { IfOk result (λ found. found.1 ≡ before + length (lines text.now)) }
    ensures vars { IfOk result (λ found. found.0.vars ≡ vars) }
    ensures fault { IfErr result (λ fault.
        IsFirstBad fault (first_bad vars (content before (lines text.now)))) }
{
    let mut body = Body {
        vars,
        sink,
        unclosed: Vec::new(alloc),
    };
    let mut line = before;
    let mut rest = text;
    while !rest.is_empty() {
        let (bytes, after) = first_line(rest);
        line += 1;
        if !is_comment(bytes) {
            match body.take_words(alloc, without_return(bytes)) {
                Ok(()) => {}
                Err(WordFault::BadNumber) => return Err(CnfFault::BadNumber(line)),
                Err(WordFault::Memory) => return Err(CnfFault::Memory),
            }
        }
        rest = after;
    }
    Ok((body, line))
}
