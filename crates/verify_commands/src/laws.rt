//! Laws over the definitions alone: each is the contract of a function that does nothing.
ghost use Rattle.arc_outside.specs.Files.{Files};
ghost use Rattle.command_words.specs.declared.commands.TraceWords.{TraceWords};
ghost use Rattle.run_files.specs.Answers.{IsTold};
ghost use Rattle.run_files.specs.declared.limits.Limits.TheVariants.{Judging};
ghost use Rattle.run_files.specs.declared.outcome.Done.{Done};
ghost use Rattle.run_files.specs.declared.outcome.FileRefusal.{FileRefusal};
ghost use Rattle.run_inputs.specs.Counts.{IsJudgingRefusal};
ghost use Rattle.std.specs.Prelude.{◌≡◌, ℕ, List};
ghost use Rattle.verify_commands.specs.Traces.{IsTraced, IsTraceRefusal, TellsTrace};
ghost use Rattle.verify_commands.specs.Verifies.{IsVerified, TellsVerdicts};

/// What the status of `verify` says.
pub fn verify_is_told()
    ensures { (document : List ℕ) → IsTold (IsJudgingRefusal Judging document) (IsVerified document)
        (λ status before after. TellsVerdicts document status before) }
{}

/// What the status of `trace` says.
pub fn trace_is_told()
    ensures { (words : TraceWords) → IsTold (IsTraceRefusal words) (IsTraced words)
        (λ status before after. TellsTrace words status before) }
{}

/// The words and the files give at most one trace or one first refusal, never both.
pub fn trace_is_determined()
    ensures one_trace { (words : TraceWords) (files : Files) (done other : Done)
        → IsTraced words files done → IsTraced words files other → done ≡ other }
    ensures one_refusal { (words : TraceWords) (files : Files) (r s : FileRefusal)
        → IsTraceRefusal words files r → IsTraceRefusal words files s → r ≡ s }
    ensures not_both { (words : TraceWords) (files : Files) (done : Done) (r : FileRefusal)
        → IsTraced words files done → IsTraceRefusal words files r → ⊥ }
{}
