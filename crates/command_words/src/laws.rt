//! A law over the definitions alone: the contract of a function that does nothing.
ghost use Rattle.command_words.specs.Manual.{Gives};
ghost use Rattle.command_words.specs.Words.{Given, given_by};
ghost use Rattle.std.specs.Prelude.{◌≡◌, ◌↔◌, ℕ, List, None, Some};

/// The words give what the manual page says, and nothing else.
pub fn words_give_what_the_manual_says()
    ensures { (options words : List (List ℕ)) (given : List Given) →
        (given_by options words None ≡ Some given) ↔ Gives options words given }
{}
