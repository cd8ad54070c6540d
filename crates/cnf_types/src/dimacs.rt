//! Formulas from the text of a DIMACS file.
ghost use Rattle.arc_base.specs.TextLines.{lines};
ghost use Rattle.cnf_types.specs.Dimacs.{content, from_header, after_header, counted, reading};
ghost use Rattle.cnf_types.specs.Dimacs.{IsFaultOfCnf};
ghost use Rattle.cnf_types.specs.Progress.{pieces_after};
ghost use Rattle.std.specs.Prelude.{◌≡◌, ◌+◌, ◌<◌, ◌≤◌, ◌^◌, [], length, IfOk, IfErr, Err, Ok};
ghost use Rattle.std.specs.Prelude.{IsTrue, ◌↔◌};

use crate::body::{Body, read_lines};
use crate::clauses::Formula;
use crate::faults::CnfFault;
use crate::header::{Header, header_of, is_comment};
use crate::sinks::ClauseSink;
use arc_base::limits::{LITERAL_LIMIT, VARIABLE_LIMIT};
use arc_base::{LimitKind, List, first_line, without_return};
use std::alloc::Global;

/// The header of a text, the number of its line, and what follows that.
fn read_header(text: &[u8]) -> Result<(Header, u32, &[u8]), CnfFault>
    requires { length text.now < 2 ^ 32 }
    ensures header { IfOk result (λ found.
        from_header (length (lines text.now)) (content 0 (lines text.now))
        ≡ after_header (length (lines text.now)) (content found.1 (lines found.2.now)) found.0) }
    ensures fault { IfErr result (λ fault.
        from_header (length (lines text.now)) (content 0 (lines text.now)) ≡ Err fault) }
    ensures last { IfOk result (λ found.
        found.1 + length (lines found.2.now) ≡ length (lines text.now)) }
    ensures size { IfOk result (λ found. found.1 + length found.2.now ≤ length text.now) }
{
    let mut line = 0;
    let mut rest = text;
    while !rest.is_empty() {
        let (bytes, after) = first_line(rest);
        line += 1;
        rest = after;
        if !is_comment(bytes) {
            return match header_of(without_return(bytes)) {
                Some(header) => Ok((header, line, rest)),
                None => Err(CnfFault::BadHeader(line)),
            };
        }
    }
    Err(CnfFault::BadHeader(line))
}

/// Whether `clauses` clauses were taken, and each of them is closed.
fn is_whole<S: ClauseSink>(body: &Body<S>, clauses: u64) -> bool
    ensures { IsTrue result ↔
        ((length (S.taken body.now.sink) ≡ clauses) × (body.now.unclosed.items ≡ [])) }
{
    body.sink.count() == clauses && body.unclosed.is_empty()
}

/// The variables and the clauses that were read, if the number of clauses is the header's.
fn finish<S: ClauseSink + Drop>(
    body: Body<S>,
    header: Header,
    last: u32,
) -> Result<(u64, S), CnfFault>
    requires { body.vars ≡ header.vars }
    ensures formula { IfOk result (λ found.
        counted header last (pieces_after (S.taken body.sink) body.unclosed.items [])
        ≡ Ok (record { vars = found.0; clauses = S.taken found.1 })) }
    ensures fault { IfErr result (λ fault.
        counted header last (pieces_after (S.taken body.sink) body.unclosed.items [])
        ≡ Err fault) }
{
    if !is_whole(&body, header.clauses) {
        return Err(CnfFault::Count(last));
    }
    let literals = body.sink.literal_count();
    if literals > LITERAL_LIMIT {
        return Err(CnfFault::TooLarge(LimitKind::Literals, literals));
    }
    Ok((body.vars, body.sink))
}

/// Reads the formula that a text in DIMACS form writes, and hands each clause to a sink as soon as
/// it is closed; gives the number of variables and the sink, or the text's first fault. Lines that
/// begin with `c` are comments. The first other line is the header `p cnf V C`; then come C
/// clauses, each closed by 0, over any lines.
pub fn read_clauses<S: ClauseSink + Drop>(
    alloc: Global,
    bytes: &[u8],
    sink: S,
) -> Result<(u64, S), CnfFault>
    requires size { length bytes.now < 2 ^ 32 }
    requires empty { S.taken sink ≡ [] }
    ensures formula { IfOk result (λ found. reading bytes.now
        ≡ Ok (record { vars = found.0; clauses = S.taken found.1 })) }
    ensures fault { IfErr result (IsFaultOfCnf bytes.now) }
{
    let (header, line, rest) = read_header(bytes)?;
    if header.vars > VARIABLE_LIMIT {
        return Err(CnfFault::TooLarge(LimitKind::Variables, header.vars));
    }
    let (body, last) = read_lines(alloc, header.vars, line, rest, sink)?;
    finish(body, header, last)
}

/// The formula that a text in DIMACS form writes, or its first fault; `read_clauses` says of what
/// form that is.
pub fn formula(alloc: Global, bytes: &[u8]) -> Result<Formula, CnfFault>
    requires { length bytes.now < 2 ^ 32 }
    ensures formula { IfOk result (λ f. reading bytes.now ≡ Ok f) }
    ensures fault { IfErr result (IsFaultOfCnf bytes.now) }
{
    let (vars, clauses) = read_clauses(alloc, bytes, List::make(alloc))?;
    Ok(Formula { vars, clauses })
}
