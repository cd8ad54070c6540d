//! The next line of a file, and what is open after it.
ghost use Rattle.ios_lines.specs.Kinds.{after_line, kind_within};
ghost use Rattle.ios_lines.specs.Lines.{IsFaultOfText};
ghost use Rattle.ios_lines.specs.Reading.{block_after, first_after, is_alone, IsNext, Stands};
ghost use Rattle.std.specs.Prelude.{◌≡◌, ◌+◌, ◌-◌, ◌<◌, ◌^◌, length, None, IfOk, IfErr};

use crate::banner::Delimiter;
use crate::cutting::LineFault;
use crate::end::line_end;
use crate::kind::{Kind, banner_after, kind_within};
use crate::line::Line;
use crate::words::word_spans;
use arc_base::Span;
use std::alloc::Global;

/// What is open after the first lines of a file.
#[derive(Clone, Copy)]
pub(crate) struct Open {
    /// How many lines these are.
    pub(crate) count: u32,
    /// The number of the line that heads the open block, or 0.
    pub(crate) block: u32,
    /// What ends the open banner.
    pub(crate) banner: Option<Delimiter>,
    /// The number of the line that began the open banner, if there is one.
    pub(crate) first: u32,
}

/// The number of the block that is open after the line of this kind and number, from that before
/// it.
fn block_after(kind: Kind, number: u32, block: u32) -> u32
    ensures { result ≡ block_after kind number block }
{
    match kind {
        Kind::Blank | Kind::Remark | Kind::Inner => block,
        Kind::Head => number,
        Kind::Comment | Kind::Single | Kind::Banner => 0,
    }
}

/// The number of the line that began the open banner, after the line of this number.
fn first_after(banner: Option<Delimiter>, number: u32, first: u32) -> u32
    ensures { result ≡ first_after banner number first }
{
    match banner {
        None => number,
        Some(_) => first,
    }
}

/// Whether a line of this kind has no block and ought to, where this one is open.
fn is_alone(kind: Kind, block: u32) -> bool
    ensures { result ≡ is_alone kind block }
{
    match kind {
        Kind::Inner => block == 0,
        _ => false,
    }
}

impl Open {
    /// Nothing, before the first line.
    pub(crate) fn nothing() -> Open
        ensures count { result.count ≡ 0 }
        ensures block { result.block ≡ 0 }
        ensures banner { result.banner ≡ None }
    {
        Open {
            count: 0,
            block: 0,
            banner: None,
            first: 0,
        }
    }

    /// What is open after one more line, which is of this kind.
    fn after(self, kind: Kind, line: &[u8]) -> Open
        requires few { self.count < 2 ^ 32 - 1 }
        requires kind { kind ≡ kind_within self.banner line.now }
        ensures count { result.count ≡ self.count + 1 }
        ensures block { result.block ≡ block_after kind (self.count + 1) self.block }
        ensures banner { result.banner ≡ after_line self.banner line.now }
        ensures first { result.first ≡ first_after self.banner (self.count + 1) self.first }
    {
        let number = self.count + 1;
        Open {
            count: number,
            block: block_after(kind, number, self.block),
            banner: banner_after(self.banner, kind, line),
            first: first_after(self.banner, number, self.first),
        }
    }
}

/// The line that begins at a place, and what is open after it.
pub(crate) fn next_line(
    alloc: Global,
    bytes: &[u8],
    at: usize,
    state: Open,
) -> Result<(Line, Open), LineFault>
    requires few { length bytes.now < 2 ^ 32 }
    requires more { at < length bytes.now }
    requires stands { Stands bytes.now at state }
    ensures next { IfOk result (λ next. IsNext bytes.now at state next.0 next.1) }
    ensures fault { IfErr result (IsFaultOfText bytes.now) }
{
    let (to, end) = line_end(bytes, at);
    let text = &bytes[at..to];
    let kind = kind_within(state.banner, text);
    if is_alone(kind, state.block) {
        return Err(LineFault::Orphan(state.count + 1));
    }
    let words = word_spans(alloc, bytes, at, to)?;
    let after = state.after(kind, text);
    let line = Line {
        span: Span {
            from: at as u32,
            to: to as u32,
        },
        end,
        block: after.block,
        head: kind.is_head(),
        inert: kind.is_inert(),
        words,
    };
    Ok((line, after))
}
