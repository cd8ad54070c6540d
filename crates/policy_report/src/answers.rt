//! The second line of a repair, which says what is answered.
ghost use Rattle.policy_report.specs.Readings.{answer_of};
ghost use Rattle.std.specs.Prelude.{◌≡◌, map};

use crate::reading::{after_word, count_of};

/// What a repair answers.
#[derive(Clone, Copy, Debug, PartialEq, Eq)]
pub(crate) enum Answer {
    /// Edits of this price, with the bound up to which prices were looked at.
    Repaired(u32, u32),
    /// That there is no repair within this bound.
    NoRepair(u32),
    /// That the budget was used up.
    Budget,
}

/// `answer repaired PRICE BOUND`, `answer none BOUND` or `answer budget LIMIT BOUND`
pub(crate) fn answer_of(words: &[&[u8]]) -> Option<Answer>
    ensures { result ≡ answer_of (map (λ word. word.now) words.now) }
{
    match after_word(words, b"answer")? {
        [word, bound] => {
            let bound = count_of(bound)?;
            if *word == b"none".as_slice() {
                Some(Answer::NoRepair(bound))
            } else {
                None
            }
        }
        [word, number, bound] => {
            let number = count_of(number)?;
            let bound = count_of(bound)?;
            if *word == b"repaired".as_slice() {
                Some(Answer::Repaired(number, bound))
            } else if *word == b"budget".as_slice() {
                Some(Answer::Budget)
            } else {
                None
            }
        }
        _ => None,
    }
}
