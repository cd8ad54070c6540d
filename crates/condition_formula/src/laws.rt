//! Laws over the definitions alone: each is the contract of a function that does nothing.
ghost use Rattle.condition_formula.specs.Laws.{ModelsAreRepairs, OneModelServes};
ghost use Rattle.condition_formula.specs.Laws.{WritingKeepsMeaning, QuestionsAreExact};
ghost use Rattle.condition_formula.specs.Laws.{PricesAreCounted, FormulasAreOverVariables};

/// The written clauses are true under an assignment exactly if the parts that they were written
/// from are: what is left out changes nothing.
pub fn writing_keeps_meaning()
    ensures { WritingKeepsMeaning }
{}

/// The clauses of one question have a model that begins with the edits exactly if the edits meet
/// the question.
pub fn questions_are_exact()
    ensures { QuestionsAreExact }
{}

/// In a model the variables of the counter are true at each number below the price; and if they are
/// true at those alone, the clauses of the counter are true.
pub fn prices_are_counted()
    ensures { PricesAreCounted }
{}

/// The formula with a bound on the price has a model that begins with the edits exactly if they
/// meet every question and their price is within the bound.
pub fn models_are_repairs()
    ensures { ModelsAreRepairs }
{}

/// If edits meet every question, one model that begins with them satisfies every bound from their
/// price on.
pub fn one_model_serves()
    ensures { OneModelServes }
{}

/// All literals of the formula, and those of the price, are over the formula's variables.
pub fn formulas_are_over_variables()
    ensures { FormulasAreOverVariables }
{}
