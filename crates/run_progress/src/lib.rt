//! Listeners, which are told what a run is doing while it goes on. No contract says what a listener
//! does, so no answer depends on one.
#![tactic(auto)]

/// What a run is doing.
#[derive(Clone, Copy, Debug)]
pub enum Work {
    /// It is reading the router files, and building their network.
    Reading,
    /// It is judging the policy at this place, counted from 0.
    Judging { place: u32, count: u32 },
    /// It is searching, and has learnt from this many conflicts.
    Searching { conflicts: u64 },
    /// Its search has found a solution of this price, and is looking for a cheaper one.
    Found { price: u64 },
    /// It is about to write files and to print.
    Ending,
}

/// What is told of the work of a run.
pub trait Listener {
    fn heard(&mut self, work: Work);
}

/// A listener that does nothing.
#[derive(Drop)]
pub struct Nobody;

impl Listener for Nobody {
    fn heard(&mut self, _work: Work) {}
}
