//! Laws over the definitions alone: each is the contract of a function that does nothing.
ghost use Rattle.formula_text_laws.specs.Texts.{FormulasAreReadAgain};

/// The plain text of a formula is read as the formula, where its variables and literals are within
/// the reader's limits.
pub fn formulas_are_read_again()
    ensures { FormulasAreReadAgain }
{}
