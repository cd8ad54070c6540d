//! A router file is cut into its lines.
ghost use Rattle.ios_lines.specs.Lines.{AreLinesOf, IsFaultOfText, HasOrphanAt, HasOpenBannerAt};
ghost use Rattle.std.specs.Prelude.{◌≡◌, ◌<◌, ◌^◌, ℕ, length, IfOk, IfErr, IsOk};

use crate::line::Lines;
use crate::reading::{Open, next_line};
use arc_base::{List, Memory};
use std::alloc::Global;

/// Why a text has no lines: the number of the first such line, or out of memory.
#[derive(Clone, Copy, Debug, PartialEq, Eq)]
pub enum LineFault {
    /// A line that begins with a blank and is neither blank nor a comment, where no block is open.
    Orphan(u32),
    /// The first line of a banner that does not end.
    OpenBanner(u32),
    /// Out of memory.
    Memory,
}

impl From<Memory> for LineFault {
    ghost use Rattle.ios_lines.specs.declared.cutting.LineFault.TheVariants.{Memory};

    ghost from_gives = { λ _ fault. fault ≡ Memory };

    fn from(_memory: Memory) -> LineFault {
        LineFault::Memory
    }
}

/// The lines of a router file, or the first line that belongs to no block and ought to, or else the
/// banner that does not end.
pub fn cut(alloc: Global, bytes: &[u8]) -> Result<Lines, LineFault>
    requires { length bytes.now < 2 ^ 32 }
    ensures lines { IfOk result (AreLinesOf bytes.now) }
    ensures no_orphan { IsOk result → (number : ℕ) → ¬ HasOrphanAt bytes.now number }
    ensures no_open_banner { IsOk result → (number : ℕ) → ¬ HasOpenBannerAt bytes.now number }
    ensures fault { IfErr result (IsFaultOfText bytes.now) }
{
    let mut rows = List::make(alloc);
    let mut state = Open::nothing();
    let mut at = 0;
    while at < bytes.len() {
        let (line, after) = next_line(alloc, bytes, at, state)?;
        at = (line.span.to + u32::from(line.end)) as usize;
        rows.push(line)?;
        state = after;
    }
    match state.banner {
        Some(_) => Err(LineFault::OpenBanner(state.first)),
        None => Ok(Lines { rows }),
    }
}
