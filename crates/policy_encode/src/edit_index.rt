//! The places of edits in their list.
ghost use Rattle.edit_list.specs.declared.edit_kinds.Edit.{Edit as AnyEdit};
ghost use Rattle.policy_encode.specs.Finding.{IsIndexOf};
ghost use Rattle.policy_encode.specs.Turning.{key_of, packet_key, place_of, condition_at, turned};
ghost use Rattle.std.specs.Prelude.{◌≡◌, ◌≢◌, ◌<◌, ◌^◌, List, length, AllPairs, IfOk};

use arc_base::Memory;
use condition_formula::Condition;
use edit_list::Edit;
use indexmap::IndexSet;
use net_model::Class;
use std::alloc::Global;

/// The numbers that make an edit: its kind, the place where it acts, and of its entry the prefix,
/// or the two prefixes and the range of services.
pub(crate) type EditKey = (u8, u32, u32, u8, u32, u8, u32, u32);

/// The numbers of an edit of a packet list: its kind, its place and those of its class.
fn packet_key(kind: u8, place: u32, class: &Class) -> EditKey
    ensures { result ≡ packet_key kind place class.now }
{
    let (from, to, of) = (class.from, class.to, class.service);
    (
        kind, place, from.addr, from.len, to.addr, to.len, of.low, of.high,
    )
}

/// The numbers of an edit.
fn key_of(edit: &Edit) -> EditKey
    ensures { result ≡ key_of edit.now }
{
    match edit {
        Edit::Session(face) => (0, face.0, 0, 0, 0, 0, 0, 0),
        Edit::RouteList(list, to) => (1, list.0, to.addr, to.len, 0, 0, 0, 0),
        Edit::RouteNew(face, to) => (2, face.0, to.addr, to.len, 0, 0, 0, 0),
        Edit::PacketList(list, class) => packet_key(3, list.0, class),
        Edit::PacketNew(face, class) => packet_key(4, face.0, class),
    }
}

/// The condition that holds as the answer says, and the other way round where the edit at the place
/// is chosen.
fn condition_at(answer: bool, place: Option<u32>) -> Condition
    ensures { result ≡ condition_at answer place }
{
    match place {
        None => {
            if answer {
                Condition::Always
            } else {
                Condition::Never
            }
        }
        Some(place) => {
            if answer {
                Condition::Unless(place)
            } else {
                Condition::If(place)
            }
        }
    }
}

/// The numbers of the edits, in the order of the edits.
#[derive(Drop)]
pub(crate) struct EditIndex {
    pub(crate) keys: IndexSet<EditKey>,
}

impl EditIndex {
    /// The index of a list in which no edit occurs twice.
    pub(crate) fn of(alloc: Global, edits: &[Edit]) -> Result<EditIndex, Memory>
        requires { AllPairs (λ e f. e ≢ f) edits.now }
        ensures { IfOk result (IsIndexOf edits.now) }
    {
        let mut keys = IndexSet::new(alloc);
        for edit in edits {
            keys.insert_full(key_of(edit))?;
        }
        Ok(EditIndex { keys })
    }

    /// The place of an edit in the list, if it is there.
    fn place_of(&self, edit: Edit) -> Option<u32>
        requires { length self.now.keys.keys < 2 ^ 32 }
        ensures { (list : List AnyEdit) → IsIndexOf list self.now → result ≡ place_of list edit }
    {
        match self.keys.get_index_of(&key_of(&edit)) {
            Some(place) => Some(place as u32),
            None => None,
        }
    }

    /// The condition for an answer that the edit turns, if it is one of the list.
    pub(crate) fn turned(&self, edit: Edit, answer: bool) -> Condition
        requires { length self.now.keys.keys < 2 ^ 32 }
        ensures { (list : List AnyEdit) → IsIndexOf list self.now →
            result ≡ turned list edit answer }
    {
        condition_at(answer, self.place_of(edit))
    }
}
