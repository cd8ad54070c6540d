//! What a line of a certificate gives its reader.

use arc_base::CertKind;
use net_model::Verdict;
use proof_log::Step;

/// What a line of a certificate gives its reader.
#[derive(Drop)]
pub enum Got {
    /// A line inside a block or the head, the line before the log, or a comment in the log.
    More,
    /// The line that says what is claimed: the first one of a report, the second one of a repair.
    Head(CertForm),
    /// The last line of a block: the policy's place in the document, and the verdict that the block
    /// shows.
    Verdict(u32, Verdict),
    /// An edit, by its place in the list of edits.
    Edit(u32),
    /// A step of the proof log.
    Step(Step),
    /// The closing line.
    End,
}

/// What a certificate claims.
#[derive(Clone, Copy, Debug, PartialEq, Eq)]
pub enum CertForm {
    /// A verdict on each policy of the document.
    Report,
    /// The cheapest edits: their price, and the bound up to which prices were looked at.
    Repaired(u32, u32),
    /// That no edits of a price up to this bound meet the document.
    NoRepair(u32),
}

/// The first line of a certificate that is rejected, counted from 1, and why.
#[derive(Clone, Copy, Debug, PartialEq, Eq)]
pub struct CertFault {
    pub line: u64,
    pub kind: CertKind,
}
