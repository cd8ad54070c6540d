//! Laws over the definitions alone: each is the contract of a function that does nothing.
ghost use Rattle.policy_encode.specs.Laws.{QuestionsMirrorNetworks, QuestionsArePolicies};
ghost use Rattle.policy_encode.specs.Laws.{ModelsAreRepairs, OneModelServes, FormulasAreSearchable};
ghost use Rattle.policy_encode.specs.Laws.{FormulasAreThere, HaveOneFormula};

/// The question of a policy mirrors the network after any edits, arc by arc and class by class.
pub fn questions_mirror_networks()
    ensures { QuestionsMirrorNetworks }
{}

/// A choice of edits meets the question of a policy exactly where the network after the edits meets
/// the policy.
pub fn questions_are_policies()
    ensures { QuestionsArePolicies }
{}

/// The formula under a bound has a model that begins with the flags of edits exactly where the
/// network after them meets the document and they cost no more.
pub fn models_are_repairs()
    ensures { ModelsAreRepairs }
{}

/// Where the network after edits meets the document, one model that begins with their flags keeps
/// each bound from their price on.
pub fn one_model_serves()
    ensures { OneModelServes }
{}

/// The literals of the formula and its tops are of its variables.
pub fn formulas_are_searchable()
    ensures { FormulasAreSearchable }
{}

/// There is a repair formula.
pub fn formulas_are_there()
    ensures { FormulasAreThere }
{}

/// There is no more than one repair formula.
pub fn one_formula()
    ensures { HaveOneFormula }
{}
