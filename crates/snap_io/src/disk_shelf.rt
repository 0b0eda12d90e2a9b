//! The shelf of a real run: files of the system. No contract can know what a disk does, so it tells only its counts of
//! faults.
ghost use Rattle.std.specs.Prelude.{◌≡◌, ◌≤◌, IfOk, None, length};

use crate::{Failed, Shelf};
use std::fs::{Files, OpenOptions};
use std::io;
use std::io::{ErrorKind, Read, Seek, SeekFrom, Write};
use std::marker::Model;

/// The files of the system. Tells none of them, and takes each error for a fault, that of an absent name too.
/// Contracts see its reading and its writing count.
#[derive(Drop)]
pub struct DiskShelf<'r, R: Files> {
    system: &'r R,
    reading: u64,
    writing: u64,
}

impl<'r, R: Files> Model for DiskShelf<'r, R> {
    ghost use Rattle.std.specs.Prelude.{ℕ};

    ghost Value = { ℕ × ℕ };

    ghost view = { λ s. (s.reading, s.writing) };
}

impl<'r, R: Files> DiskShelf<'r, R> {
    /// A shelf over these files, without faults.
    pub fn new(files: &'r R) -> DiskShelf<'r, R>
        ensures { result ≡ (0, 0) }
    {
        DiskShelf {
            system: files,
            reading: 0,
            writing: 0,
        }
    }
}

impl<'r, R: Files> Shelf for DiskShelf<'r, R> {
    ghost files = { λ s. None };

    ghost read_faults = { λ s. s.0 };

    ghost write_faults = { λ s. s.1 };

    fn size(&mut self, name: &str) -> Result<u64, Failed> {
        match size_of(self.system, name) {
            Ok(size) => Ok(size),
            Err(_) => Err(Failed::counted(&mut self.reading)),
        }
    }

    fn read(&mut self, name: &str, at: u64, into: &mut [u8]) -> Result<usize, Failed> {
        match read_at(self.system, name, at, into) {
            Ok(count) => Ok(count),
            Err(_) => Err(Failed::counted(&mut self.reading)),
        }
    }

    fn create(&mut self, name: &str) -> Result<(), Failed> {
        match create_empty(self.system, name) {
            Ok(()) => Ok(()),
            Err(_) => Err(Failed::counted(&mut self.writing)),
        }
    }

    fn append(&mut self, name: &str, bytes: &[u8]) -> Result<(), Failed> {
        match append_to(self.system, name, bytes) {
            Ok(()) => Ok(()),
            Err(_) => Err(Failed::counted(&mut self.writing)),
        }
    }
}

fn size_of<R: Files>(system: &R, name: &str) -> io::Result<u64> {
    let found = system.metadata(name)?;
    if found.is_dir() {
        return Err(ErrorKind::IsADirectory.into());
    }
    Ok(found.len())
}

fn read_at<R: Files>(system: &R, name: &str, at: u64, into: &mut [u8]) -> io::Result<usize>
    ensures { IfOk result (λ n. n ≤ length into.new) }
{
    let mut file = OpenOptions::new().read(true).open(system, name)?;
    file.seek(SeekFrom::Start(at))?;
    file.read(into)
}

fn create_empty<R: Files>(system: &R, name: &str) -> io::Result<()> {
    OpenOptions::new()
        .write(true)
        .create(true)
        .truncate(true)
        .open(system, name)?;
    Ok(())
}

// Without `create`, so that an absent file is an error; `write_all` writes on after a short write.
fn append_to<R: Files>(system: &R, name: &str, bytes: &[u8]) -> io::Result<()> {
    let mut file = OpenOptions::new().append(true).open(system, name)?;
    file.write_all(bytes)
}
