//! The trusted edge to the files of the system. Its contracts say nothing of what the files hold.
ghost use Rattle.std.specs.IoError.{error_kind};
ghost use Rattle.std.specs.Prelude.{◌≡◌, ◌≢◌, ◌<◌, ◌≤◌, None, length, IfOk, IfErr};

use crate::{Fault, Store};
use arc_base::{Memory, Name};
use std::alloc::Global;
use std::fs::{File, OpenFile, Permissions};
use std::io::{ErrorKind, Read, Seek, SeekFrom, Write};
use std::os::unix::fs::MetadataExt;
use std::rt::Files;
use std::{fs, io, str};

/// What was tried with a file when the system failed.
#[derive(Clone, Copy, Debug, PartialEq, Eq)]
pub enum Operation {
    Reading,
    Writing,
}

/// What failed: which file was read or written, and the system's error. Where a write was refused
/// because the file had been read, also the name by which it was.
#[derive(Drop)]
pub struct Failure {
    pub name: Name,
    pub operation: Operation,
    pub error: io::Error,
    pub read_as: Option<Name>,
}

/// A plain file that was read: the name by which it was, and its device and inode.
#[derive(Drop)]
struct Seen {
    name: Name,
    dev: u64,
    ino: u64,
}

/// A file that is being read, how many of its bytes were, and whether it is a plain one.
#[derive(Drop)]
struct Reading<F: Drop> {
    name: Name,
    file: F,
    place: u64,
    is_plain: bool,
    dev: u64,
    ino: u64,
}

/// The files of the system: the one that is being read, the pipes that gave bytes and the plain
/// files that were read.
#[derive(Drop)]
struct Disk<R: Files> {
    rt: R,
    alloc: Global,
    reading: Option<Reading<R::File>>,
    emptied: Vec<Name>,
    seen: Vec<Seen>,
}

/// The files of the system, named by paths in UTF-8. A file to be read that is not there is Missing
/// and raises the count of absences. Running out of memory is Memory, in the program for a name or
/// in the system. Every other error is Failed and raises the count of faults, also a name that is
/// no path, and also running out of memory while bytes are read, since the content of the buffer is
/// then unknown.
///
/// A file stays open from its first piece to its last, so that one that is replaced meanwhile is
/// read as it was, and a pipe can be read once: to read it from its start again is an error, and
/// not the end of a file. A plain file is written beside its name, as NAME.part, and then renamed,
/// so that it is whole or as it was; where no such file can be made, and at a link, a pipe or a
/// device, the bytes are written in its place. If there is no memory for the name NAME.part nothing
/// is written. A plain file that was read is not written, by whatever name it is called: that is
/// Failed, and nothing is lost.
#[derive(Drop)]
pub struct DiskStore<R: Files> {
    disk: Disk<R>,
    failure: Option<Failure>,
    faults: u64,
    absences: u64,
    taken: u64,
}

impl<R: Files> DiskStore<R> {
    /// The store over the system's files.
    pub fn make(rt: R, alloc: Global) -> Self
        ensures faults { result.faults ≡ 0 }
        ensures absences { result.absences ≡ 0 }
        ensures taken { result.taken ≡ 0 }
    {
        let disk = Disk {
            rt,
            alloc,
            reading: None,
            emptied: Vec::new(alloc),
            seen: Vec::new(alloc),
        };
        DiskStore {
            disk,
            failure: None,
            faults: 0,
            absences: 0,
            taken: 0,
        }
    }

    /// What the system refused last, if it did and there was memory to keep it.
    pub fn failure(&self) -> Option<&Failure> {
        self.failure.as_ref()
    }
}

fn path_of(name: &Name) -> io::Result<&str>
    ensures { IfOk result (λ path. path.now ≡ name.now) }
{
    match str::from_utf8(name.bytes()) {
        Ok(path) => Ok(path),
        Err(_) => Err(io::Error::from(ErrorKind::InvalidInput)),
    }
}

fn copy_of(alloc: Global, name: &Name) -> io::Result<Name> {
    match Name::make(alloc, name.bytes()) {
        Ok(copy) => Ok(copy),
        Err(Memory) => Err(io::Error::from(ErrorKind::OutOfMemory)),
    }
}

fn failure_of(
    alloc: Global,
    name: &Name,
    operation: Operation,
    error: io::Error,
    read_as: Option<Name>,
) -> Option<Failure> {
    let name = copy_of(alloc, name).ok()?;
    Some(Failure {
        name,
        operation,
        error,
        read_as,
    })
}

/// The file among these that has this device and inode.
fn seen_at(seen: &[Seen], dev: u64, ino: u64) -> Option<&Seen> {
    seen.iter().find(|it| it.dev == dev && it.ino == ino)
}

/// The error of a read that failed, and not because memory ran out.
fn failed_read(error: io::Error) -> io::Error
    ensures { error_kind result ≢ ErrorKind.OutOfMemory }
{
    if error.kind() == ErrorKind::OutOfMemory {
        return io::Error::new(ErrorKind::Other, "the system had no memory to read");
    }
    error
}

/// Fills a new file with the permissions of the file that it will replace.
fn fill<F: Write + OpenFile>(
    file: &mut F,
    bytes: &[u8],
    permissions: Option<Permissions>,
) -> io::Result<()> {
    if let Some(permissions) = permissions {
        file.set_permissions(permissions)?;
    }
    file.write_all(bytes)?;
    file.sync_data()
}

impl<R: Files> Disk<R> {
    /// Opens a file at a place. One that is read from its start need not know places, as a pipe
    /// does not.
    fn opened(&self, name: &Name, place: u64) -> io::Result<Reading<R::File>> {
        let mut file = fs::open(&self.rt, path_of(name)?)?;
        if place > 0 {
            file.seek(SeekFrom::Start(place))?;
        }
        let found = file.metadata()?;
        Ok(Reading {
            name: copy_of(self.alloc, name)?,
            file,
            place,
            is_plain: found.is_file(),
            dev: found.dev(),
            ino: found.ino(),
        })
    }

    /// The open file, if its next byte is at this place, and else the file opened there. A drained
    /// pipe has nothing more to give.
    fn reading_at(&mut self, name: &Name, place: u64) -> io::Result<Reading<R::File>> {
        match self.reading.take() {
            Some(open) if place > 0 && open.place == place && open.name.bytes() == name.bytes() => {
                Ok(open)
            }
            _ if self.emptied.iter().any(|it| it.bytes() == name.bytes()) => Err(io::Error::new(
                ErrorKind::NotSeekable,
                "it has to be read twice, and a pipe can be read once",
            )),
            _ => self.opened(name, place),
        }
    }

    /// Notes that a plain file was read.
    fn note(&mut self, reading: &Reading<R::File>) -> io::Result<()> {
        let (dev, ino) = (reading.dev, reading.ino);
        if reading.is_plain && seen_at(&self.seen, dev, ino).is_none() {
            let name = copy_of(self.alloc, &reading.name)?;
            self.seen.push(Seen { name, dev, ino })?;
        }
        Ok(())
    }

    /// The name by which the plain file of this name was read, if it was.
    fn read_as(&self, name: &Name) -> io::Result<Option<Name>> {
        let found = match fs::metadata(&self.rt, path_of(name)?) {
            Ok(found) if found.is_file() => found,
            Ok(_) | Err(_) => return Ok(None),
        };
        match seen_at(&self.seen, found.dev(), found.ino()) {
            Some(it) => Ok(Some(copy_of(self.alloc, &it.name)?)),
            None => Ok(None),
        }
    }

    /// Reads on where the file is open at this place, and else opens it there. At its end it is
    /// closed. A file that is not a plain one and gave bytes is noted, since it does not give them
    /// again.
    fn read_on(&mut self, name: &Name, place: u64, buf: &mut [u8]) -> io::Result<usize>
        ensures bound { IfOk result (λ n. n ≤ length buf.new) }
        ensures lent { IfErr result (λ e.
            error_kind e ≡ ErrorKind.OutOfMemory → buf.new ≡ buf.old) }
    {
        let mut current = self.reading_at(name, place)?;
        self.note(&current)?;
        let is_begun = place == 0 && !current.is_plain;
        if is_begun {
            self.emptied.push(copy_of(self.alloc, name)?)?;
        }
        let n = match current.file.read(buf) {
            Ok(n) => n,
            Err(error) => return Err(failed_read(error)),
        };
        if n > 0 {
            current.place = current.place.saturating_add(n as u64);
            self.reading = Some(current);
        } else if is_begun {
            self.emptied.pop();
        }
        Ok(n)
    }

    /// Writes a file beside a name, and then gives it the name.
    fn write_beside(
        &self,
        path: &str,
        bytes: &[u8],
        permissions: Option<Permissions>,
    ) -> io::Result<()> {
        let beside = format!(in self.alloc; "{path}.part")?;
        let Ok(mut file) = File::create_new(&self.rt, beside.as_str()) else {
            return fs::write(&self.rt, path, bytes);
        };
        let filled = fill(&mut file, bytes, permissions);
        drop(file);
        let written = match filled {
            Ok(()) => fs::rename(&self.rt, beside.as_str(), path),
            Err(error) => Err(error),
        };
        if written.is_err() {
            let _gone = fs::remove_file(&self.rt, beside.as_str());
        }
        written
    }

    fn write(&self, name: &Name, bytes: &[u8]) -> io::Result<()> {
        let path = path_of(name)?;
        match fs::symlink_metadata(&self.rt, path) {
            Ok(old) if old.is_file() => self.write_beside(path, bytes, Some(old.permissions())),
            Ok(_) => fs::write(&self.rt, path, bytes),
            Err(error) if error.kind() == ErrorKind::NotFound => {
                self.write_beside(path, bytes, None)
            }
            Err(error) => Err(error),
        }
    }
}

impl<R: Files> Store for DiskStore<R> {
    ghost held = { λ s. None };

    ghost faults = { λ s. s.faults };

    ghost absences = { λ s. s.absences };

    ghost taken = { λ s. s.taken };

    fn read_at(&mut self, name: &Name, place: u64, buf: &mut [u8]) -> Result<usize, Fault> {
        match self.disk.read_on(name, place, buf) {
            Ok(n) => {
                self.taken = self.taken.saturating_add(n as u64);
                Ok(n)
            }
            Err(error) => {
                if error.kind() == ErrorKind::OutOfMemory {
                    return Err(Fault::Memory);
                }
                if error.kind() == ErrorKind::NotFound {
                    self.absences = self.absences.saturating_add(1);
                    return Err(Fault::Missing);
                }
                self.failure = failure_of(self.disk.alloc, name, Operation::Reading, error, None);
                self.faults = self.faults.saturating_add(1);
                Err(Fault::Failed)
            }
        }
    }

    fn write_whole(&mut self, name: &Name, bytes: &[u8]) -> Result<(), Fault> {
        let (read_as, written) = match self.disk.read_as(name) {
            Ok(None) => (None, self.disk.write(name, bytes)),
            Ok(read_as) => (read_as, Err(io::Error::from(ErrorKind::AlreadyExists))),
            Err(error) => (None, Err(error)),
        };
        let Err(error) = written else {
            return Ok(());
        };
        if error.kind() == ErrorKind::OutOfMemory {
            return Err(Fault::Memory);
        }
        self.failure = failure_of(self.disk.alloc, name, Operation::Writing, error, read_as);
        self.faults = self.faults.saturating_add(1);
        Err(Fault::Failed)
    }
}
