//! Why a text is no formula in DIMACS form.
ghost use Rattle.std.specs.Prelude.{◌≡◌};

use arc_base::{LimitKind, Memory};

/// Why a text is no formula in DIMACS form. Lines count from 1; a text without lines has its fault
/// at line 0.
#[derive(Clone, Copy, Debug, PartialEq, Eq)]
pub enum CnfFault {
    /// The first line that is no comment is no header `p cnf V C`: its line, or the last line of a
    /// text of comments.
    BadHeader(u32),
    /// A word after the header is no whole number, or its absolute value is above V: its line.
    BadNumber(u32),
    /// There are not C clauses, or the last one has no closing 0: the last line.
    Count(u32),
    /// A count passes its limit: V, or the number of literals.
    TooLarge(LimitKind, u64),
    /// Out of memory.
    Memory,
}

impl From<Memory> for CnfFault {
    ghost use Rattle.cnf_types.specs.declared.faults.CnfFault.TheVariants.{Memory};

    ghost from_gives = { λ _ fault. fault ≡ Memory };

    fn from(_memory: Memory) -> CnfFault {
        CnfFault::Memory
    }
}
