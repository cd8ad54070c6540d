//! The commands, each with its words.

use arc_base::{List, Name, Prefix};

/// A command with its words.
#[derive(Drop)]
pub enum Command {
    /// `verify DOC`: the document.
    Verify(Name),
    /// `trace DOC FROM TO [--down A,B]`.
    Trace(TraceWords),
    /// `repair DOC --out SUFFIX --proof NAME [--max-price N] [--conflicts N]`.
    Repair(RepairWords),
    /// `check DOC CERT`: the document and the certificate.
    Check(Name, Name),
    /// `apply DOC EDITS --out SUFFIX`.
    Apply(ApplyWords),
    /// `solve CNF --proof NAME [--conflicts N]`.
    Solve(SolveWords),
    /// `lrat CNF PROOF`: the formula and the proof.
    Lrat(Name, Name),
    /// `generate N --proof NAME`.
    Generate(GenerateWords),
    /// `nodes DOC FROM TO K`.
    Nodes(NodesWords),
    /// `prefers DOC FROM TO ROUTERS`.
    Prefers(PrefersWords),
    /// `recheck DOC REPORT`.
    Recheck(RecheckWords),
}

/// The words of a trace.
#[derive(Drop)]
pub struct TraceWords {
    pub document: Name,
    pub from: Prefix,
    pub to: Prefix,
    /// The numbers of the links that are down, counted from 1, in the order in which they are
    /// written.
    pub down: List<u32>,
}

/// The words of a search for an assignment.
#[derive(Drop)]
pub struct SolveWords {
    pub formula: Name,
    /// The name that the log of the search is written under.
    pub proof: Name,
    /// How many conflicts the search may learn from.
    pub conflicts: u64,
}

/// The words of a repair.
#[derive(Drop)]
pub struct RepairWords {
    pub document: Name,
    /// What follows the name of a router file in the name of its changed copy.
    pub suffix: Name,
    /// The name that the certificate is written under.
    pub proof: Name,
    /// The highest price of a repair, at most `PRICE_LIMIT`.
    pub bound: u32,
    /// How many conflicts the search may learn from, from 1 to `CONFLICT_LIMIT`.
    pub conflicts: u64,
}

/// The words of an application of edits.
#[derive(Drop)]
pub struct ApplyWords {
    pub document: Name,
    /// The file with the texts of the edits, one a line.
    pub edits: Name,
    /// What follows the name of a router file in the name of its changed copy.
    pub suffix: Name,
}

/// The words of a network to make.
#[derive(Drop)]
pub struct GenerateWords {
    /// How many routers it has, from `FEWEST_GENERATED` to `MOST_GENERATED`.
    pub number: u32,
    /// The name that the certificate of its repair is written under.
    pub proof: Name,
}

/// The words of a judgement under failed routers.
#[derive(Drop)]
pub struct NodesWords {
    pub document: Name,
    pub from: Prefix,
    pub to: Prefix,
    /// How many routers may fail, at most `FAILURE_LIMIT`.
    pub failures: u32,
}

/// The words of a judgement of a preferred path.
#[derive(Drop)]
pub struct PrefersWords {
    pub document: Name,
    pub from: Prefix,
    pub to: Prefix,
    /// The names of the routers of the path, in order.
    pub routers: List<Name>,
}

/// The words of a judgement that keeps what it can of an old report.
#[derive(Drop)]
pub struct RecheckWords {
    pub document: Name,
    /// The file with the old report.
    pub report: Name,
}
