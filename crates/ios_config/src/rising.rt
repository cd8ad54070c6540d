//! The numbers of a list's entries.
ghost use Rattle.ios_config.specs.Least.{FindsLeast, lesser};
ghost use Rattle.ios_config.specs.Rising.{rises, FallsAt, IsNotRising};
ghost use Rattle.std.specs.Prelude.{◌≡◌};

use crate::lists::entry_number;
use crate::settings::{Given, ListText};
use ios_words::Command;

/// Whether the second number may follow the first.
fn rises(earlier: Option<u32>, later: Option<u32>) -> bool
    ensures { result ≡ rises earlier later }
{
    match (earlier, later) {
        (None, None) => true,
        (Some(a), Some(b)) => a < b,
        _ => false,
    }
}

/// The lesser of two numbers that were found or not.
pub fn lesser(a: Option<u32>, b: Option<u32>) -> Option<u32>
    ensures { result ≡ lesser a b }
{
    match (a, b) {
        (Some(x), Some(y)) => Some(x.min(y)),
        (Some(x), None) => Some(x),
        (None, found) => found,
    }
}

/// The first line of the list whose entry may not follow the one before it.
fn first_in_list(entries: &[Given<Command>]) -> Option<u32>
    ensures { FindsLeast (FallsAt entries.now) result }
{
    let mut found = None;
    for place in 1..entries.len() {
        let earlier = entry_number(&entries[place - 1].value);
        let later = &entries[place];
        if !rises(earlier, entry_number(&later.value)) {
            found = lesser(found, Some(later.line));
        }
    }
    found
}

/// The first line of a list whose entry may not follow the one before it, if there is one.
pub fn first_not_rising(lists: &[ListText]) -> Option<u32>
    ensures { FindsLeast (IsNotRising lists.now) result }
{
    let mut found = None;
    for list in lists {
        found = lesser(found, first_in_list(list.entries.slice()));
    }
    found
}
