//! Laws over the definitions alone: each is the contract of a function that does nothing.
ghost use Rattle.arc_outside.specs.Files.{Files};
ghost use Rattle.command_words.specs.declared.commands.RepairWords.{RepairWords};
ghost use Rattle.repair_commands.specs.Repairs.{IsRepaired, IsRepairRefusal};
ghost use Rattle.repair_commands.specs.Tells.{PutsCheapest, TellsRepair};
ghost use Rattle.run_files.specs.Answers.{IsTold};
ghost use Rattle.run_files.specs.declared.outcome.Done.{Done};
ghost use Rattle.run_files.specs.declared.outcome.FileRefusal.{FileRefusal};
ghost use Rattle.std.specs.Prelude.{◌≡◌};

/// What the status of `repair` says; after 0 the printed text has the price and the edits of a
/// cheapest repair, and the names of the written files.
pub fn repair_is_told()
    ensures status { (words : RepairWords) →
        IsTold (IsRepairRefusal words) (IsRepaired words) (TellsRepair words) }
    ensures text { (words : RepairWords) (files : Files) (done : Done) →
        IsRepaired words files done → done.status ≡ 0 → PutsCheapest words files done }
{}

/// The words and the files give at most one first refusal of `repair`, and never a refusal and an
/// answer.
pub fn repair_is_determined()
    ensures one_refusal { (words : RepairWords) (files : Files) (r s : FileRefusal)
        → IsRepairRefusal words files r → IsRepairRefusal words files s → r ≡ s }
    ensures not_both { (words : RepairWords) (files : Files) (done : Done) (r : FileRefusal)
        → IsRepaired words files done → IsRepairRefusal words files r → ⊥ }
{}
