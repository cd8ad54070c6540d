//! What is judged next of the certificate of a repair, as a state machine over its lines.

use net_model::Network;
use proof_check::Checker;
use report_check::Outcome;

/// The state once the edits are read.
#[derive(Drop)]
pub(crate) struct Blocks {
    /// The network after the edits.
    pub now: Network,
    /// Whether the log has to refute the formula; at price 0 there is nothing to refute.
    pub needs: bool,
    /// How many policies are judged so far.
    pub judged: u64,
    /// The line where the block of the next line begins.
    pub first: u64,
    /// The checker of the log.
    pub checker: Checker,
}

/// The claim that there is a repair, as far as it is read.
#[derive(Drop)]
pub(crate) struct RepairClaim {
    /// The price that is claimed.
    pub price: u32,
    /// The bound that is claimed.
    pub bound: u32,
    /// The edits that are chosen so far: a flag for each.
    pub chosen: Vec<bool>,
    /// The checker of the log, if the bound is at most `PRICE_LIMIT`.
    pub log: Option<Checker>,
}

/// What the lines so far leave to be judged.
#[derive(Drop)]
pub(crate) enum Phase {
    /// All lines.
    Head,
    /// The answer, and what follows it.
    Answer,
    /// The edits of a repair.
    Edits(RepairClaim),
    /// The blocks of the policies.
    Blocks(Blocks),
    /// The line before the log of a claim that there is no repair.
    Ready(Checker),
    /// The log, and whether it has to refute the formula.
    Log(bool, Checker),
    /// Nothing: the last line was read.
    Ended,
}

/// What follows a line.
#[derive(Drop)]
pub(crate) enum Next {
    /// Another line, which this phase judges.
    Line(Phase),
    /// Nothing: this is the outcome.
    Done(Outcome),
}
