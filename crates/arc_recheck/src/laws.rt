//! Laws over the definitions alone: each is the contract of a function that does nothing.
ghost use Rattle.arc_recheck.specs.Laws.{RightAnswersAreOne};
ghost use Rattle.net_model.specs.Validity.{IsValid};
ghost use Rattle.net_model.specs.declared.rows.Network.{Network};

/// In a valid network two right verdicts on a policy have one answer. So a verdict that is kept has
/// the answer, yes, no or refused, that one given anew would have.
pub fn right_answers_are_one()
    ensures { (net : Network) → IsValid net → RightAnswersAreOne net }
{}
