//! How many policies of a document a network meets.
ghost use Rattle.generate_commands.specs.Tallies.{one_more, tally_of};
ghost use Rattle.std.specs.Prelude.{◌≡◌, ◌+◌, ◌<◌, ◌^◌};

use net_model::Verdict;

/// How many policies a network meets, how many it breaks, and how many are not clear in it.
#[derive(Clone, Copy, Debug, PartialEq, Eq)]
pub struct Tally {
    pub yes: u64,
    pub no: u64,
    pub refused: u64,
}

impl Tally {
    /// The tally with one more verdict.
    fn with(self, verdict: &Verdict) -> Tally
        requires yes { self.yes + 1 < 2 ^ 64 }
        requires no { self.no + 1 < 2 ^ 64 }
        requires refused { self.refused + 1 < 2 ^ 64 }
        ensures { result ≡ one_more self verdict.now }
    {
        let mut tally = self;
        match verdict {
            Verdict::Closed(_) | Verdict::Paths(_) => tally.yes += 1,
            Verdict::Walk(..) | Verdict::Denied(_) | Verdict::Cut(..) => tally.no += 1,
            Verdict::Refused(..) => tally.refused += 1,
        }
        tally
    }
}

/// How many of the verdicts are of each sort.
pub fn counted(verdicts: &[Verdict]) -> Tally
    ensures { result ≡ tally_of verdicts.now }
{
    let mut tally = Tally {
        yes: 0,
        no: 0,
        refused: 0,
    };
    for verdict in verdicts {
        tally = tally.with(verdict);
    }
    tally
}
