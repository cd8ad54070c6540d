//! Files whose lines come to a judge one by one.
ghost use Rattle.run_files.specs.Answers.{OnlyReads};
ghost use Rattle.run_files.specs.LineJudges.{JudgesText};
ghost use Rattle.std.specs.Prelude.{◌≤◌, IfSome};

use crate::by_lines::next_line;
use crate::outcome::Stop;
use arc_base::Name;
use arc_outside::{Pieces, Store};
use std::alloc::Global;
use std::ops::ControlFlow;

/// A judge of a text whose lines come one by one.
pub trait LineJudge: Sized + Drop {
    ghost use Rattle.run_files.specs.Answers.{Gives, HasStopCause};
    ghost use Rattle.run_files.specs.LineJudges.{GoesOn, Judges};
    ghost use Rattle.run_files.specs.declared.outcome.FileRefusal.{FileRefusal};
    ghost use Rattle.std.specs.ControlFlow.{continue_value};
    ghost use Rattle.std.specs.Prelude.{◌<◌, ◌∷◌, ℕ, [], List, IfErr, IfOk, IfSome};

    /// The outcome of judging a text.
    type Outcome;

    /// How many more lines may come.
    ghost room: { Self → ℕ };

    /// Another line may come, or the end.
    ghost can_go_on: { Self → Type 0 };

    /// Where these lines come, and then the end, this is the outcome.
    ghost leads_to: { Self → List (List ℕ) → Self.Outcome → Type 0 };

    /// Where these lines come, and then the end, this is refused.
    ghost refuses: { Self → List (List ℕ) → FileRefusal → Type 0 };

    /// Judges the next line, without its line feed: another may come, or this is the outcome,
    /// whatever follows.
    fn line(self, alloc: Global, line: &[u8]) -> Result<ControlFlow<Self::Outcome, Self>, Stop>
        requires room { 0 < room self }
        requires going { can_go_on self }
        ensures judged { (rest : List (List ℕ)) → Gives (refuses self (line.now ∷ rest))
            (Judges leads_to refuses self (line.now ∷ rest) rest) result }
        ensures going { IfOk result (λ flow. IfSome (continue_value flow)
            (GoesOn room can_go_on self)) }
        ensures cause { IfErr result (HasStopCause ⊥ ⊥ ⊥) };

    /// The outcome where no other line comes.
    fn end(self, alloc: Global) -> Result<Self::Outcome, Stop>
        requires going { can_go_on self }
        ensures judged { Gives (refuses self []) (leads_to self []) result }
        ensures cause { IfErr result (HasStopCause ⊥ ⊥ ⊥) };
}

/// Judges the lines of a file one by one, or refuses the file. No more of it than a piece and a
/// line is held.
pub fn judge_lines<S: Store, J: LineJudge>(
    alloc: Global,
    store: &mut S,
    name: &Name,
    limit: u64,
    mut judge: J,
) -> Result<J::Outcome, Stop>
    requires room { limit ≤ J.room judge }
    requires going { J.can_go_on judge }
    ensures told { IfSome (S.held store.old) (λ files.
        JudgesText (J.leads_to judge) (J.refuses judge) limit files name.now result) }
    ensures reads { OnlyReads limit S.held S.faults S.absences S.taken store.old store.new result }
{
    let mut pieces = Pieces::make(alloc, limit);
    'lines: loop {
        match next_line(alloc, &mut pieces, store, name) {
            Ok(true) => {}
            Ok(false) => return judge.end(alloc),
            Err(stop) => return Err(stop),
        }
        match judge.line(alloc, pieces.line()) {
            Ok(ControlFlow::Continue(next)) => judge = next,
            Ok(ControlFlow::Break(outcome)) => return Ok(outcome),
            Err(stop) => return Err(stop),
        }
    }
}
