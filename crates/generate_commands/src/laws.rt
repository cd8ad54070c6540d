//! Laws over the definitions alone: each is the contract of a function that does nothing.
ghost use Rattle.command_words.specs.declared.commands.GenerateWords.{GenerateWords};
ghost use Rattle.generate_commands.specs.Generates.{IsGenerateRefusal, IsSummary};
ghost use Rattle.generate_commands.specs.Tells.{TellsGenerate};
ghost use Rattle.run_files.specs.Answers.{IsTold};
ghost use Rattle.run_files.specs.declared.outcome.Done.{Done};
ghost use Rattle.run_files.specs.declared.outcome.FileRefusal.{FileRefusal};
ghost use Rattle.std.specs.Prelude.{◌≡◌};

/// What the status of `generate` says.
pub fn generate_is_told()
    ensures { (words : GenerateWords) →
        IsTold (λ files. IsGenerateRefusal words) (λ files. IsSummary words) (TellsGenerate words) }
{}

/// The words give at most one refusal of `generate`, and never both a refusal and an answer.
pub fn generate_is_determined()
    ensures one_refusal { (words : GenerateWords) (r s : FileRefusal)
        → IsGenerateRefusal words r → IsGenerateRefusal words s → r ≡ s }
    ensures not_both { (words : GenerateWords) (done : Done) (r : FileRefusal)
        → IsSummary words done → IsGenerateRefusal words r → ⊥ }
{}
