//! Laws over the definitions alone: each is the contract of a function that does nothing.
ghost use Rattle.cnf_commands.specs.Lrats.{IsJudged, IsLratRefusal, TellsRefutation};
ghost use Rattle.cnf_commands.specs.Solves.{IsSolved, IsSolveRefusal, SolvedIsRefuted};
ghost use Rattle.cnf_commands.specs.Solves.{TellsSolution};
ghost use Rattle.command_words.specs.declared.commands.SolveWords.{SolveWords};
ghost use Rattle.run_files.specs.Answers.{IsTold};
ghost use Rattle.std.specs.Prelude.{ℕ, List};

/// What the status of `lrat` says.
pub fn lrat_is_told()
    ensures { (cnf proof : List ℕ) → IsTold (IsLratRefusal cnf proof) (IsJudged cnf proof)
        (λ status before after. TellsRefutation cnf proof status before) }
{}

/// What the status of `solve` says.
pub fn solve_is_told()
    ensures { (words : SolveWords) →
        IsTold (IsSolveRefusal words) (IsSolved words) (TellsSolution words) }
{}

/// Every proof that `solve` wrote with status 2 is accepted by `lrat` over the same formula.
pub fn solved_is_refuted()
    ensures { SolvedIsRefuted }
{}
