//! The rows that may match a line are tried one after another.
ghost use Rattle.ios_words.specs.Rows.{rule_of};
ghost use Rattle.ios_words.specs.Trials.{trial, trial_of, try_rules, is_short};
ghost use Rattle.ios_words.specs.Views.{words_of};
ghost use Rattle.std.specs.List.{list_all};
ghost use Rattle.std.specs.Prelude.{◌≡◌, ◌⊎◌, None, Err, IsTrue, map, unwrap_or, length, ◌≤◌};

use crate::commands::Command;
use crate::found::Found;
use crate::kinds::WordFault;
use crate::matching::matches;
use crate::meaning::give;
use crate::reading::Reader;
use crate::rows::Row;
use crate::words::Words;
use std::alloc::Global;

/// What the first row that matches with every word says, or else the fault by the first row that
/// matches.
pub(crate) fn try_rows(
    alloc: Global,
    rows: &[Row],
    words: Words,
    extended: bool,
) -> Result<Command, WordFault>
    requires { IsTrue (list_all is_short (map rule_of rows.now)) }
    ensures { (result ≡ Err WordFault.Memory) ⊎
        (result ≡ try_rules extended (words_of words.entry) None (map rule_of rows.now)) }
{
    let mut first = None;
    for row in rows {
        match trial(row, words, extended) {
            Some(Ok(found)) => {
                return match give(alloc, row.meaning, found) {
                    Ok(command) => Ok(command),
                    Err(_) => Err(WordFault::Memory),
                };
            }
            Some(Err(fault)) => first = Some(first.unwrap_or(fault)),
            None => {}
        }
    }
    Err(first.unwrap_or(WordFault::Unknown))
}

/// What a row says of the words, where it matches.
fn trial<'a>(row: &Row, words: Words<'a>, extended: bool) -> Option<Result<Found<'a>, WordFault>>
    requires { length row.now.parts.now ≤ 100 }
    ensures { trial_of result ≡ trial extended (words_of words.entry) (rule_of row.now) }
{
    if !matches(row.parts, words) {
        return None;
    }
    match Reader::start(words, extended).read_parts(row.parts) {
        Ok(reader) => Some(reader.finish()),
        Err(fault) => Some(Err(fault)),
    }
}
