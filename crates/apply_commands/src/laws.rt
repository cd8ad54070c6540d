//! Laws over the definitions alone: each is the contract of a function that does nothing.
ghost use Rattle.apply_commands.specs.Applies.{IsApplied, IsApplyRefusal, TellsApply};
ghost use Rattle.arc_outside.specs.Files.{Files};
ghost use Rattle.command_words.specs.declared.commands.ApplyWords.{ApplyWords};
ghost use Rattle.run_files.specs.Answers.{IsTold};
ghost use Rattle.run_files.specs.declared.outcome.Done.{Done};
ghost use Rattle.run_files.specs.declared.outcome.FileRefusal.{FileRefusal};
ghost use Rattle.std.specs.Prelude.{◌≡◌};

/// What the status of `apply` says.
pub fn apply_is_told()
    ensures { (words : ApplyWords) →
        IsTold (IsApplyRefusal words) (IsApplied words) (TellsApply words) }
{}

/// The words and the files give at most one first refusal of `apply`, and never a refusal and an
/// answer.
pub fn apply_is_determined()
    ensures one_refusal { (words : ApplyWords) (files : Files) (r s : FileRefusal)
        → IsApplyRefusal words files r → IsApplyRefusal words files s → r ≡ s }
    ensures not_both { (words : ApplyWords) (files : Files) (done : Done) (r : FileRefusal)
        → IsApplied words files done → IsApplyRefusal words files r → ⊥ }
{}
