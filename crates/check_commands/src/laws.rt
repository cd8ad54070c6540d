//! Laws over the definitions alone: each is the contract of a function that does nothing.
ghost use Rattle.arc_outside.specs.Files.{Files};
ghost use Rattle.check_commands.specs.RepairChecks.{IsAnyChecked, IsAnyRefusal};
ghost use Rattle.check_commands.specs.ReportChecks.{IsChecked, IsCheckRefusal, TellsReportCheck};
ghost use Rattle.check_commands.specs.Tells.{TellsCheck};
ghost use Rattle.run_files.specs.Answers.{IsTold};
ghost use Rattle.run_files.specs.declared.outcome.Done.{Done};
ghost use Rattle.run_files.specs.declared.outcome.FileRefusal.{FileRefusal};
ghost use Rattle.std.specs.Prelude.{◌≡◌, ℕ, List};

use repair_check::laws::outcome_is_unique;

/// What the status of `check` says of a certificate that is judged as a report.
pub fn check_is_told()
    ensures { (document certificate : List ℕ) →
        IsTold (IsCheckRefusal document certificate) (IsChecked document certificate)
        (λ status before after. TellsReportCheck document certificate status before) }
{}

/// The document, the certificate and the router files give at most one answer of `check` or one
/// first refusal, never both, for a certificate that is judged as a report.
pub fn check_is_determined()
    ensures one_answer { (document certificate : List ℕ) (files : Files) (done other : Done)
        → IsChecked document certificate files done
        → IsChecked document certificate files other → done ≡ other }
    ensures one_refusal { (document certificate : List ℕ) (files : Files) (r s : FileRefusal)
        → IsCheckRefusal document certificate files r
        → IsCheckRefusal document certificate files s → r ≡ s }
    ensures not_both { (document certificate : List ℕ) (files : Files)
        (done : Done) (r : FileRefusal) → IsChecked document certificate files done
        → IsCheckRefusal document certificate files r → ⊥ }
{}

/// What the status of `check` says of a certificate of either form.
pub fn any_check_is_told()
    ensures { (document certificate : List ℕ) →
        IsTold (IsAnyRefusal document certificate) (IsAnyChecked document certificate)
        (λ status before after. TellsCheck document certificate status before) }
{}

/// The document, the certificate and the router files give at most one answer of `check` or one
/// first refusal, never both, for a certificate of either form.
pub fn any_check_is_determined()
    ensures one_answer { (document certificate : List ℕ) (files : Files) (done other : Done)
        → IsAnyChecked document certificate files done
        → IsAnyChecked document certificate files other → done ≡ other }
    ensures one_refusal { (document certificate : List ℕ) (files : Files) (r s : FileRefusal)
        → IsAnyRefusal document certificate files r
        → IsAnyRefusal document certificate files s → r ≡ s }
    ensures not_both { (document certificate : List ℕ) (files : Files)
        (done : Done) (r : FileRefusal) → IsAnyChecked document certificate files done
        → IsAnyRefusal document certificate files r → ⊥ }
{
    outcome_is_unique();
}
