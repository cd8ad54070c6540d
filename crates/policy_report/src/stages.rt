//! What may come next in a certificate that is read line by line.

use crate::drafts::Draft;
use crate::got::CertFault;

/// Whose blocks are read.
#[derive(Clone, Copy, Debug, PartialEq, Eq)]
pub(crate) enum Text {
    Report,
    Repair,
}

/// What may come next.
#[derive(Drop)]
pub(crate) enum Stage {
    /// The first line.
    Head,
    /// The answer of a repair.
    Answer,
    /// An edit, at this place or after it, or a block, or what closes the blocks.
    Edits(u32),
    /// A block, or what closes the blocks after the last one; this many blocks are read.
    Between(Text, u64),
    /// A line of the block of the policy at this place.
    Within(Text, u32, Draft),
    /// The line before the proof log.
    Log,
    /// A line of the proof log, or the end.
    Steps,
    /// Nothing: the closing line is read.
    Ended,
    /// Nothing: a line was rejected.
    Failed(CertFault),
}
