//! A file read line by line.
ghost use Rattle.arc_outside.specs.Lines.{TakesFront};
ghost use Rattle.std.specs.Prelude.{◌≤◌, IfOk};

use crate::reading::ReadAll;
use crate::window::Window;
use crate::{Fault, Store};
use arc_base::{Memory, Name};
use std::alloc::Global;

/// A reader of one file line by line, in pieces of `PIECE_LENGTH` bytes. It holds no more of the
/// file than a piece and a line.
#[derive(Drop)]
pub struct Pieces {
    limit: u64,
    place: u64,
    window: Window,
    line: Vec<u8>,
    failed: bool,
    ghost within: { place ≤ limit },
}

/// Moves the bytes before the first line feed of the window to the end of the line, and takes them
/// and the line feed off the window. Where there is no line feed it moves all, and says so.
fn take_front(window: &mut Window, line: &mut Vec<u8>) -> Result<bool, Memory>
    ensures { IfOk result (TakesFront window.old line.old.items line.new.items window.new) }
{
    match window.rest().iter().position(|byte| *byte == b'\n') {
        Some(end) => {
            line.extend_from_slice(&window.rest()[..end])?;
            window.skip(end + 1);
            Ok(true)
        }
        None => {
            let rest = window.rest();
            let count = rest.len();
            line.extend_from_slice(rest)?;
            window.skip(count);
            Ok(false)
        }
    }
}

impl Pieces {
    ghost use Rattle.arc_outside.specs.LinesRead.{ahead, left, HandsOut, ReadsLine};
    ghost use Rattle.arc_outside.specs.Reads.{OnlyReadsFile};
    ghost use Rattle.std.specs.Prelude.{◌≡◌, ◌+◌, ◌-◌, ◌^◌, ◌<◌, ◌≤◌, [], ℕ, true, false, List};
    ghost use Rattle.std.specs.Prelude.{Option, unwrap_or, min, IfOk, IfSome, OnOk, OnErr, IsTrue};

    /// A reader at the start of a file of at most `limit` bytes. It takes no memory yet.
    pub fn make(alloc: Global, limit: u64) -> Pieces
        ensures left { (file : Option (List ℕ)) → left result file ≡ unwrap_or file [] }
        ensures limit { result.limit ≡ limit }
        ensures place { result.place ≡ 0 }
        ensures ahead { ahead result ≡ limit }
        ensures failed { result.failed ≡ false }
    {
        Pieces {
            limit,
            place: 0,
            window: Window::make(alloc),
            line: Vec::new(alloc),
            failed: false,
        }
    }

    /// The current line, without its line feed.
    pub fn line(&self) -> &[u8]
        ensures { result.now ≡ self.now.line.items }
    {
        &self.line
    }

    /// Whether a call ended in an error.
    pub fn failed(&self) -> bool
        ensures { result ≡ self.now.failed }
    {
        self.failed
    }

    /// Moves to the next line, and leaves it open whether the reader failed.
    fn read_line<S: Store>(&mut self, store: &mut S, name: &Name) -> Result<bool, ReadAll>
        ensures told { IfSome (S.held store.old) (λ files.
            ReadsLine (files name.now) self.old self.new result) }
        ensures fewer { IfOk result (λ found. IsTrue found → ahead self.new < ahead self.old) }
        ensures handed { OnOk result (HandsOut self.old self.new) }
        ensures limit { self.new.limit ≡ self.old.limit }
        ensures kept { self.new.failed ≡ self.old.failed }
        ensures onward { self.old.place ≤ self.new.place }
        ensures took { min (S.taken store.old + (self.new.place - self.old.place)) (2 ^ 64 - 1)
            ≤ S.taken store.new }
        ensures no_more { OnOk result
            (S.taken store.new ≤ S.taken store.old + (self.new.place - self.old.place)) }
        ensures reads { OnlyReadsFile (self.old.limit - self.old.place) S.held S.faults S.absences
            S.taken store.old store.new result }
    {
        self.line.clear();
        'pieces: loop {
            match take_front(&mut self.window, &mut self.line) {
                Ok(true) => return Ok(true),
                Ok(false) => {}
                Err(Memory) => return Err(ReadAll::Fault(Fault::Memory)),
            }
            let n = match self.window.refill(store, name, self.place) {
                Ok(n) => n,
                Err(fault) => return Err(ReadAll::Fault(fault)),
            };
            if n == 0 {
                return Ok(!self.line.is_empty());
            }
            if n as u64 > self.limit - self.place {
                return Err(ReadAll::TooLong);
            }
            self.place += n as u64;
        }
    }

    /// Moves to the next line of the file, and says whether there is one. The first read is at
    /// place 0, and each other begins where the one before ended. Each byte is copied once into its
    /// line, so a file is read in time linear in its bytes and the reads. It ends for every store,
    /// since each turn takes a byte.
    pub fn next<S: Store>(&mut self, store: &mut S, name: &Name) -> Result<bool, ReadAll>
        requires { self.old.failed ≡ false }
        ensures told { IfSome (S.held store.old) (λ files.
            ReadsLine (files name.now) self.old self.new result) }
        ensures fewer { IfOk result (λ found. IsTrue found → ahead self.new < ahead self.old) }
        ensures handed { OnOk result (HandsOut self.old self.new) }
        ensures limit { self.new.limit ≡ self.old.limit }
        ensures ok { OnOk result (self.new.failed ≡ false) }
        ensures err { OnErr result (self.new.failed ≡ true) }
        ensures onward { self.old.place ≤ self.new.place }
        ensures took { min (S.taken store.old + (self.new.place - self.old.place)) (2 ^ 64 - 1)
            ≤ S.taken store.new }
        ensures no_more { OnOk result
            (S.taken store.new ≤ S.taken store.old + (self.new.place - self.old.place)) }
        ensures reads { OnlyReadsFile (self.old.limit - self.old.place) S.held S.faults S.absences
            S.taken store.old store.new result }
    {
        self.failed = true;
        let found = self.read_line(store, name)?;
        self.failed = false;
        Ok(found)
    }
}
