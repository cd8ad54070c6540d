//! Restarts: when a search goes back to level 0 and begins its decisions anew. Nothing but speed
//! depends on it.
ghost use Rattle.sat_search.specs.Restarting.{at_first, ends_gap, after_conflict};
ghost use Rattle.std.specs.Prelude.{◌≡◌};

/// The conflicts before the first restart.
const FIRST: u64 = 100;

/// How many conflicts are left to the next restart, and how many there are from the last one to it.
/// Each gap is twice the one before: on hard formulas frequent restarts cost more than they bring.
#[derive(Clone, Copy, Debug)]
pub(crate) struct Restarts {
    left: u64,
    gap: u64,
}

impl Restarts {
    /// The first gap.
    pub fn make() -> Restarts
        ensures { result ≡ at_first }
    {
        Restarts {
            left: FIRST,
            gap: FIRST,
        }
    }

    /// Counts a conflict, and answers whether the search is to restart after it.
    pub fn is_due(&mut self) -> bool
        ensures due { result ≡ ends_gap self.old }
        ensures after { self.new ≡ after_conflict self.old }
    {
        self.left = self.left.saturating_sub(1);
        if self.left > 0 {
            return false;
        }
        self.gap = self.gap.saturating_mul(2);
        self.left = self.gap;
        true
    }
}
