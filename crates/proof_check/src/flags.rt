//! Flags that are all cleared at once.
ghost use Rattle.std.specs.Prelude.{◌≡◌, ◌<◌, true, false, length, replicate, slice_get, slice_set};
ghost use Rattle.std.specs.Prelude.{IfOk};

use arc_base::Memory;
use std::alloc::Global;
use std::marker::Model;

/// Flags, each under its place. A flag is set where its stamp is the current one, so that all are
/// cleared in constant time, and only once in 2^32 calls in time linear in their number.
/// Contracts see the list of the flags.
#[derive(Debug, Drop)]
pub(crate) struct Flags {
    stamps: Vec<u32>,
    current: u32,
}

impl Model for Flags {
    ghost use Rattle.std.specs.Prelude.{◌≤◌, ◌==◌, List, Bool, All, map};

    ghost Value = { List Bool };

    ghost view = { λ f. map (λ stamp. stamp == f.current) f.stamps.items };

    ghost invariant = { λ f. All (λ stamp. stamp ≤ f.current) f.stamps.items };
}

impl Flags {
    /// `count` flags, none of them set.
    pub fn make(alloc: Global, count: usize) -> Result<Flags, Memory>
        ensures { IfOk result (λ flags. flags ≡ replicate count false) }
    {
        Ok(Flags {
            stamps: Vec::from_elem(alloc, 0u32, count)?,
            current: 1,
        })
    }

    /// Clears all flags in constant time, except for one in 2^32 calls, which takes linear time.
    pub fn clear(&mut self)
        ensures { self.new ≡ replicate (length self.old) false }
    {
        if self.current == u32::MAX {
            self.stamps.fill(0);
            self.current = 1;
        } else {
            self.current += 1;
        }
    }

    /// Sets a flag.
    pub fn set(&mut self, place: usize)
        requires { place < length self.old }
        ensures { self.new ≡ slice_set self.old place true }
    {
        self.stamps[place] = self.current;
    }

    /// Whether the flag at a place is set, if there is one.
    pub fn get(&self, place: usize) -> Option<bool>
        ensures { result ≡ slice_get self.now place }
    {
        let stamp = *self.stamps.get(place)?;
        Some(stamp == self.current)
    }

    /// How many flags there are.
    pub fn len(&self) -> usize
        ensures { result ≡ length self.now }
    {
        self.stamps.len()
    }
}
