//! Laws over the definitions alone: each is the contract of a function that does nothing.
ghost use Rattle.arc_outside.specs.Files.{Files};
ghost use Rattle.command_words.specs.declared.commands.NodesWords.{NodesWords};
ghost use Rattle.command_words.specs.declared.commands.PrefersWords.{PrefersWords};
ghost use Rattle.command_words.specs.declared.commands.RecheckWords.{RecheckWords};
ghost use Rattle.reach_commands.specs.Nodes.{IsNodesAnswer, IsNodesRefusal, TellsNodes};
ghost use Rattle.reach_commands.specs.PreferRuns.{IsPrefersAnswer, IsPrefersRefusal, TellsPrefers};
ghost use Rattle.reach_commands.specs.RecheckRuns.{IsRecheckAnswer, IsRecheckRefusal, TellsRecheck};
ghost use Rattle.run_files.specs.Answers.{IsTold};
ghost use Rattle.run_files.specs.declared.outcome.Done.{Done};
ghost use Rattle.run_files.specs.declared.outcome.FileRefusal.{FileRefusal};
ghost use Rattle.std.specs.Prelude.{◌≡◌};

/// What the status of `nodes` says.
pub fn nodes_are_told()
    ensures { (words : NodesWords) → IsTold (IsNodesRefusal words) (IsNodesAnswer words)
        (λ status before after. TellsNodes words status before) }
{}

/// What the status of `prefers` says.
pub fn prefers_is_told()
    ensures { (words : PrefersWords) → IsTold (IsPrefersRefusal words) (IsPrefersAnswer words)
        (λ status before after. TellsPrefers words status before) }
{}

/// What the status of `recheck` says.
pub fn recheck_is_told()
    ensures { (words : RecheckWords) → IsTold (IsRecheckRefusal words) (IsRecheckAnswer words)
        (λ status before after. TellsRecheck words status before) }
{}

/// `nodes` has at most one first refusal of its words and files, and never a refusal and an answer.
pub fn nodes_have_one_refusal()
    ensures one_refusal { (words : NodesWords) (files : Files) (r s : FileRefusal)
        → IsNodesRefusal words files r → IsNodesRefusal words files s → r ≡ s }
    ensures not_both { (words : NodesWords) (files : Files) (done : Done) (r : FileRefusal)
        → IsNodesAnswer words files done → IsNodesRefusal words files r → ⊥ }
{}

/// `prefers` has at most one first refusal of its words and files, and never a refusal and an
/// answer.
pub fn prefers_has_one_refusal()
    ensures one_refusal { (words : PrefersWords) (files : Files) (r s : FileRefusal)
        → IsPrefersRefusal words files r → IsPrefersRefusal words files s → r ≡ s }
    ensures not_both { (words : PrefersWords) (files : Files) (done : Done) (r : FileRefusal)
        → IsPrefersAnswer words files done → IsPrefersRefusal words files r → ⊥ }
{}

/// `recheck` has at most one first refusal of its words and files, and never a refusal and an
/// answer.
pub fn recheck_has_one_refusal()
    ensures one_refusal { (words : RecheckWords) (files : Files) (r s : FileRefusal)
        → IsRecheckRefusal words files r → IsRecheckRefusal words files s → r ≡ s }
    ensures not_both { (words : RecheckWords) (files : Files) (done : Done) (r : FileRefusal)
        → IsRecheckAnswer words files done → IsRecheckRefusal words files r → ⊥ }
{}
