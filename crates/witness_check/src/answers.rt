//! How many packets of a class a list gives an answer to, found by splitting the class at its
//! entries.
ghost use Rattle.net_model.specs.Witnesses.{IsUniform};
ghost use Rattle.std.specs.Prelude.{◌≡◌, ◌↔◌, ◌≤◌, IsTrue, position, length, drop, IfSome, IsNone};
ghost use Rattle.witness_check.specs.Answers.{EachGets, NoneGets, NoneGetsBoth, IsShare};
ghost use Rattle.witness_check.specs.Boxes.{classes_meet, entry_class};

use crate::boxes::{classes_meet, entry_class, halve_towards, splits};
use net_model::{Class, PacketEntry, PacketList};

/// How many of a class's packets get some answer from a list.
#[derive(Clone, Copy)]
pub enum Share {
    /// None of them.
    Never,
    /// Each of them.
    Always,
    /// It is not clear yet: the entry at this place splits the class, and those before it match
    /// none of its packets.
    Open(usize),
}

/// The packets to which a list gives an answer.
#[derive(Clone, Copy)]
pub struct Asked<'a> {
    pub entries: &'a [PacketEntry],
    pub answer: bool,
}

/// The index of the first entry that shares a packet with the class.
fn first_met(entries: &[PacketEntry], class: Class) -> Option<usize>
    ensures { result ≡ position (λ e. classes_meet class (entry_class e)) entries.now }
{
    entries
        .iter()
        .position(|e| classes_meet(class, entry_class(e)))
}

/// Whether the entries show that no packet of the class gets the answer: none that counts for the
/// class gives it.
fn shows_none(entries: &[PacketEntry], answer: bool, class: Class) -> bool
    ensures { IsTrue result → NoneGets entries.now answer class }
{
    for entry in entries {
        let other = entry_class(entry);
        if !classes_meet(class, other) {
            continue;
        }
        if entry.permit == answer {
            return false;
        }
        if !splits(class, other) {
            return true;
        }
    }
    answer
}

impl Asked<'_> {
    /// How many of the class's packets the list gives the answer, as far as its entries show.
    pub fn share(&self, class: Class) -> Share
        ensures { IsShare self.now.entries.now self.now.answer class result }
    {
        let Some(place) = first_met(self.entries, class) else {
            return if self.answer {
                Share::Never
            } else {
                Share::Always
            };
        };
        let entry = self.entries[place];
        if !splits(class, entry_class(&entry)) {
            return if entry.permit == self.answer {
                Share::Always
            } else {
                Share::Never
            };
        }
        if shows_none(&self.entries[place..], self.answer, class) {
            return Share::Never;
        }
        Share::Open(place)
    }

    /// The questions without the entries before this place.
    pub fn rest(&self, place: usize) -> Asked<'_>
        requires { place ≤ length self.now.entries.now }
        ensures entries { result.entries.now ≡ drop place self.now.entries.now }
        ensures answer { result.answer ≡ self.now.answer }
    {
        Asked {
            entries: &self.entries[place..],
            answer: self.answer,
        }
    }
}

/// Whether no packet of the class gets the answer. Only as much of the class is halved as an entry
/// splits.
pub fn none_gets(asked: &Asked<'_>, class: Class) -> bool
    ensures { IsTrue result ↔ NoneGets asked.now.entries.now asked.now.answer class }
{
    match asked.share(class) {
        Share::Never => true,
        Share::Always => false,
        Share::Open(place) => {
            let rest = asked.rest(place);
            let (first, second) = halve_towards(class, entry_class(&asked.entries[place]));
            none_gets(&rest, first) && none_gets(&rest, second)
        }
    }
}

/// Whether no packet of the class gets both answers, the one from the one list and the other from
/// the other.
pub fn none_gets_both(one: &Asked<'_>, other: &Asked<'_>, class: Class) -> bool
    ensures { IsTrue result ↔ NoneGetsBoth one.now.entries.now one.now.answer other.now.entries.now
        other.now.answer class }
{
    match one.share(class) {
        Share::Never => true,
        Share::Always => none_gets(other, class),
        Share::Open(place) => {
            if let Share::Never = other.share(class) {
                return true;
            }
            let rest = one.rest(place);
            let (first, second) = halve_towards(class, entry_class(&one.entries[place]));
            none_gets_both(&rest, other, first) && none_gets_both(&rest, other, second)
        }
    }
}

/// The answer that the list gives to each packet of the class, or `None` where it does not give
/// them all the same.
///
/// Entries that decide the whole class, or all give one answer, settle it at once. Else the class
/// is halved along an entry that splits it, so the work is polynomial in the number of entries,
/// whatever the sizes of the prefixes and of the ranges of services.
pub fn answer(list: &PacketList, class: Class) -> Option<bool>
    ensures answer { IfSome result (λ a. EachGets list.now.entries a class) }
    ensures none { IsNone result ↔ (¬ IsUniform list.now.entries class) }
{
    let answer = list.permits(class.first_packet());
    let other = Asked {
        entries: list.entries.slice(),
        answer: !answer,
    };
    if none_gets(&other, class) {
        Some(answer)
    } else {
        None
    }
}
