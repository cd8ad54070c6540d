//! The lines that the command prints.
ghost use Rattle.generate_commands.specs.Summaries.{answer_lines, flags_set, made_line};
ghost use Rattle.generate_commands.specs.Summaries.{repair_line, tally_line};
ghost use Rattle.generate_commands.specs.Tallies.{tally_of};
ghost use Rattle.policy_report.specs.Lines.{after_spaces, line};
ghost use Rattle.std.specs.Prelude.{◌≡◌, ◌∷◌, [], ◌++◌, ◌≤◌, OnOk, codes, decimal};

use crate::tallies::{Tally, counted};
use arc_base::Memory;
use arc_base::limits::MOST_GENERATED;
use arc_repair::Answer;
use edit_list::Claim;
use net_model::Verdict;
use policy_report::{push_count, push_word};
use std::alloc::Global;

/// Appends a word and a number, each after a space.
fn push_field(alloc: Global, text: &mut Vec<u8>, word: &[u8], count: u64) -> Result<(), Memory>
    ensures { OnOk result
        (text.new.items ≡ text.old.items ++ after_spaces (word.now ∷ decimal count ∷ [])) }
{
    push_word(text, word)?;
    push_count(alloc, text, count)
}

/// Appends the line that says what was made.
pub fn push_made(alloc: Global, text: &mut Vec<u8>, number: u32) -> Result<(), Memory>
    requires { number ≤ MOST_GENERATED }
    ensures { OnOk result (text.new.items ≡ text.old.items ++ made_line number) }
{
    text.extend_from_slice(b"generated")?;
    push_count(alloc, text, u64::from(number))?;
    push_word(text, b"routers")?;
    push_count(alloc, text, u64::from(number + number / 2))?;
    push_word(text, b"links")?;
    push_count(alloc, text, u64::from(number + 1))?;
    push_word(text, b"policies\n")?;
    Ok(())
}

/// Appends the line of a tally, which begins with this word.
pub fn push_tally(
    alloc: Global,
    text: &mut Vec<u8>,
    word: &[u8],
    tally: Tally,
) -> Result<(), Memory>
    ensures { OnOk result (text.new.items ≡ text.old.items ++ tally_line word.now tally) }
{
    text.extend_from_slice(word)?;
    push_field(alloc, text, b"yes", tally.yes)?;
    push_field(alloc, text, b"no", tally.no)?;
    push_field(alloc, text, b"refused", tally.refused)?;
    text.push(b'\n')?;
    Ok(())
}

/// How many of the flags are set.
fn flags_set(flags: &[bool]) -> u64
    ensures { result ≡ flags_set flags.now }
{
    let mut count = 0;
    for flag in flags {
        if *flag {
            count += 1;
        }
    }
    count
}

/// Appends a line with a price and a number of edits, which begins with this word.
fn push_cost(
    alloc: Global,
    text: &mut Vec<u8>,
    word: &[u8],
    price: u64,
    edits: u64,
) -> Result<(), Memory>
    ensures { OnOk result (text.new.items ≡ text.old.items ++
        line word.now (codes "price" ∷ decimal price ∷ codes "edits" ∷ decimal edits ∷ [])) }
{
    text.extend_from_slice(word)?;
    push_field(alloc, text, b"price", price)?;
    push_field(alloc, text, b"edits", edits)?;
    text.push(b'\n')?;
    Ok(())
}

/// Appends the line of a repair.
fn push_repair(alloc: Global, text: &mut Vec<u8>, price: u32, chosen: &[bool]) -> Result<(), Memory>
    ensures { OnOk result
        (text.new.items ≡ text.old.items ++ repair_line price (flags_set chosen.now)) }
{
    let edits = flags_set(chosen);
    push_cost(alloc, text, b"repair", u64::from(price), edits)
}

/// Appends the line of a repair, and that of the verdicts after it.
fn push_after(
    alloc: Global,
    text: &mut Vec<u8>,
    price: u32,
    chosen: &[bool],
    verdicts: &[Verdict],
) -> Result<(), Memory>
    ensures { OnOk result (text.new.items
        ≡ text.old.items ++ (repair_line price (flags_set chosen.now) ++
        tally_line (codes "after") (tally_of verdicts.now))) }
{
    push_repair(alloc, text, price, chosen)?;
    push_tally(alloc, text, b"after", counted(verdicts))
}

/// Appends the lines of the answer. The verdicts of its claim are those in the network after the
/// edits.
pub fn push_answer(alloc: Global, text: &mut Vec<u8>, answer: &Answer) -> Result<(), Memory>
    ensures { OnOk result (text.new.items ≡ text.old.items ++ answer_lines answer.now) }
{
    match answer {
        Answer::Done(
            Claim::Repaired {
                price,
                chosen,
                verdicts,
                ..
            },
            _,
        ) => {
            push_after(alloc, text, *price, chosen.slice(), verdicts.slice())?;
        }
        Answer::Done(Claim::NoRepair { .. }, _) => text.extend_from_slice(b"repair none\n")?,
        Answer::Budget(_) => text.extend_from_slice(b"repair budget\n")?,
    }
    Ok(())
}
