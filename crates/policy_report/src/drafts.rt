//! Verdicts whose lines are read in part.

use arc_base::{Link, List};
use net_model::{ClassSide, LinkPath, PolicyKind, Verdict};

/// What a policy asks, without the number of links that may fail.
#[derive(Clone, Copy, Debug, PartialEq, Eq)]
pub(crate) enum Asked {
    Blocked,
    Through,
    Reach,
}

/// A verdict whose witness is read in part.
#[derive(Drop)]
pub(crate) enum Draft {
    /// Closed sides: how many lines are left, at least one, and the sides so far.
    Sides(u32, List<ClassSide>),
    /// Paths: how many lines are left, at least one, and the paths so far.
    Paths(u32, List<LinkPath>),
    /// A walk.
    Walk,
    /// A class that is denied.
    Denied,
    /// A cut, of which no line is read.
    Cut,
    /// A cut whose links are read.
    Side(List<Link>),
    /// A packet that is denied on a link.
    Refused,
}

/// A block after a line of it: it goes on, or its verdict is there.
#[derive(Drop)]
pub(crate) enum Block {
    Open(Draft),
    Whole(Verdict),
}

/// The first line of a block: the policy's number, what it asks, and the witness that the answer
/// announces.
#[derive(Drop)]
pub(crate) struct Heading {
    pub(crate) number: u32,
    pub(crate) asked: Asked,
    pub(crate) block: Block,
}

impl Asked {
    ghost use Rattle.policy_report.specs.Readings.{asked_by};
    ghost use Rattle.std.specs.Prelude.{◌≡◌};

    /// What the policy of this kind asks.
    pub(crate) fn by(kind: PolicyKind) -> Asked
        ensures { result ≡ asked_by kind }
    {
        match kind {
            PolicyKind::Blocked => Asked::Blocked,
            PolicyKind::Through => Asked::Through,
            PolicyKind::Reach(_) => Asked::Reach,
        }
    }
}
