//! The bytes of one read that no line took yet.
ghost use Rattle.std.specs.Prelude.{◌≡◌, ◌<◌, ◌≤◌, length, OnOk, OnErr};

use crate::{Fault, Store};
use arc_base::limits::PIECE_LENGTH;
use arc_base::{Memory, Name};
use std::alloc::Global;
use std::marker::Model;

/// Takes the room for a read, where there is none yet.
fn take_room(alloc: Global, bytes: &mut Vec<u8>) -> Result<(), Memory>
    ensures some { OnOk result (0 < length bytes.new.items) }
    ensures same { OnErr result (bytes.new.items ≡ bytes.old.items) }
    ensures more { length bytes.old.items ≤ length bytes.new.items }
{
    if bytes.is_empty() {
        *bytes = Vec::from_elem(alloc, 0u8, PIECE_LENGTH)?;
    }
    Ok(())
}

/// What is left of the bytes of one read. The room for a read is taken by the first one and used
/// again by each other.
#[derive(Drop)]
pub(crate) struct Window {
    alloc: Global,
    bytes: Vec<u8>,
    start: usize,
    end: usize,
}

impl Model for Window {
    ghost use Rattle.std.specs.Prelude.{ℕ, ◌≤◌, List, take, drop, length};

    ghost Value = { List ℕ };

    ghost view = { λ w. drop w.start (take w.end w.bytes.items) };

    ghost invariant = { λ w. (w.start ≤ w.end) × (w.end ≤ length w.bytes.items) };
}

impl Window {
    ghost use Rattle.arc_outside.specs.Causes.{HasCause};
    ghost use Rattle.arc_outside.specs.Reads.{Reads, Took};
    ghost use Rattle.std.specs.Prelude.{◌≡◌, ◌<◌, ◌≤◌, [], length, drop, IfOk, IfSome};

    /// The window of no read.
    pub fn make(alloc: Global) -> Window
        ensures { result ≡ [] }
    {
        Window {
            alloc,
            bytes: Vec::new(alloc),
            start: 0,
            end: 0,
        }
    }

    /// The bytes that are left.
    pub fn rest(&self) -> &[u8]
        ensures { result.now ≡ self.now }
    {
        &self.bytes[self.start..self.end]
    }

    /// Takes bytes off the front.
    pub fn skip(&mut self, count: usize)
        requires { count ≤ length self.old }
        ensures { self.new ≡ drop count self.old }
    {
        self.start += count;
    }

    /// Takes the bytes of the next read in place of what is left, from a place of the file on, and
    /// says how many they are.
    pub fn refill<S: Store>(
        &mut self,
        store: &mut S,
        name: &Name,
        place: u64,
    ) -> Result<usize, Fault>
        ensures told { IfSome (S.held store.old) (λ files.
            Reads (files name.now) place result self.new) }
        ensures count { IfOk result (λ n. n ≡ length self.new) }
        ensures same { S.held store.new ≡ S.held store.old }
        ensures taken { Took (S.taken store.old) (S.taken store.new) result }
        ensures cause { HasCause Fault.Failed (S.faults store.old) (S.faults store.new) result }
        ensures absence { HasCause Fault.Missing (S.absences store.old)
            (S.absences store.new) result }
    {
        take_room(self.alloc, &mut self.bytes)?;
        let n = store.read_at(name, place, self.bytes.as_mut_slice())?;
        self.start = 0;
        self.end = n;
        Ok(n)
    }
}
