//! Laws over the definitions alone: each is the contract of a function that does nothing.
ghost use Rattle.arc_outside.specs.Files.{Files};
ghost use Rattle.run_files.specs.declared.limits.Limits.{Limits};
ghost use Rattle.run_inputs.specs.Determined.{IsDetermined, IsJudgedOnce};
ghost use Rattle.std.specs.Prelude.{ℕ, List};

/// The files give a command over a document at most one document and network or one first refusal,
/// never both.
pub fn input_is_determined()
    ensures input { (limits : Limits) (down document : List ℕ) (files : Files) →
        IsDetermined limits down document files }
    ensures judged { (limits : Limits) (document : List ℕ) (files : Files) →
        IsJudgedOnce limits document files }
{}
