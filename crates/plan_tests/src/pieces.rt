//! How files are asked for: in pieces of a bounded size, and not at all where they are too long.
use crate::asserts::{is, is_text_at};
use crate::plans::shown;
use snap_io::{Failed, MemShelf, Shelf};
use snap_model::OutOfMemory;
use std::alloc::Global;
use std::process::Abort;

/// Files in memory, of which the load file `l` is told to have a size that it needn't have. Notes what it was asked for.
/// Tells contracts nothing.
#[derive(Drop)]
struct Watched {
    held: MemShelf,
    told: u64,
    /// How often the script and the load file were read.
    script_reads: usize,
    load_reads: usize,
    /// The most bytes that were asked for at once.
    most: usize,
}

impl Shelf for Watched {
    ghost use Rattle.std.specs.Prelude.{None};

    ghost files = { λ s. None };

    ghost read_faults = { λ s. 0 };

    ghost write_faults = { λ s. 0 };

    fn size(&mut self, name: &str) -> Result<u64, Failed> {
        if name == "l" {
            return Ok(self.told);
        }
        Ok(length_in(&self.held, name))
    }

    fn read(&mut self, name: &str, at: u64, into: &mut [u8]) -> Result<usize, Failed> {
        if name == "l" {
            self.load_reads = self.load_reads.saturating_add(1);
        } else {
            self.script_reads = self.script_reads.saturating_add(1);
        }
        self.most = self.most.max(into.len());
        let bytes = bytes_from(&self.held, name, at);
        let count = into.len().min(bytes.len());
        for (to, from) in into.iter_mut().take(count).zip(bytes) {
            *to = *from;
        }
        Ok(count)
    }

    fn create(&mut self, _name: &str) -> Result<(), Failed> {
        Ok(())
    }

    fn append(&mut self, _name: &str, _bytes: &[u8]) -> Result<(), Failed> {
        Ok(())
    }
}

fn length_in(held: &MemShelf, name: &str) -> u64 {
    held.content(name).unwrap_or(b"").len() as u64
}

// The bytes of a file from a place on.
fn bytes_from<'h>(held: &'h MemShelf, name: &str, at: u64) -> &'h [u8] {
    held.content(name)
        .unwrap_or(b"")
        .get(at as usize..)
        .unwrap_or(b"")
}

// The script `a`, and a load file of one pair that is told to have so many bytes.
fn shelf_with_load(alloc: Global, script: &[u8], told: u64) -> Result<Watched, OutOfMemory> {
    let mut held = MemShelf::new(alloc);
    held.add("a", script)?;
    held.add("l", b"key,value\n3,30\n")?;
    Ok(Watched {
        held,
        told,
        script_reads: 0,
        load_reads: 0,
        most: 0,
    })
}

fn leads_to<R: Abort>(rt: &R, alloc: Global, shelf: &mut Watched, want: &str) {
    let found = shown(alloc, "a;", shelf).expect(rt, "no memory");
    is_text_at(rt, found.as_str(), want, "a watched shelf");
}

fn long_script(alloc: Global, lines: usize) -> Result<Vec<u8>, OutOfMemory> {
    let mut script = Vec::new(alloc);
    for _ in 0..lines {
        script.extend_from_slice(b"get 1\n")?;
    }
    Ok(script)
}

// A script of 131,076 bytes: two whole pieces, and one of the last four bytes.
fn asks_for_pieces<R: Abort>(rt: &R, alloc: Global) {
    let script = long_script(alloc, 21_846).expect(rt, "no memory");
    let mut shelf = shelf_with_load(alloc, &script, 0).expect(rt, "no memory");
    leads_to(rt, alloc, &mut shelf, "65536 21846 main");
    is(rt, shelf.most, 65_536);
    is(rt, shelf.script_reads, 3);
}

#[test]
fn files_are_read_in_pieces(rt: HostRuntime) {
    asks_for_pieces(&rt, rt.alloc());
}

// A load file that is told to have one byte more than it may have isn't read; one of the greatest size is.
fn asks_for_load<R: Abort>(rt: &R, alloc: Global, told: u64, want: &str, reads: usize) {
    let mut shelf = shelf_with_load(alloc, b"load l\n", told).expect(rt, "no memory");
    leads_to(rt, alloc, &mut shelf, want);
    is(rt, shelf.load_reads, reads);
}

#[test]
fn a_load_file_too_long_is_not_read(rt: HostRuntime) {
    asks_for_load(&rt, rt.alloc(), 16_777_217, "3 load l: too long", 0);
    asks_for_load(&rt, rt.alloc(), 16_777_216, "65536 1 main", 2);
    asks_for_load(&rt, rt.alloc(), 15, "65536 1 main", 1);
}

// A script of one byte more than the most isn't read either.
fn asks_for_no_script<R: Abort>(rt: &R, alloc: Global) {
    let mut script = long_script(alloc, 699_050).expect(rt, "no memory");
    script.extend_from_slice(b"get 1").expect(rt, "no memory");
    let mut shelf = shelf_with_load(alloc, &script, 0).expect(rt, "no memory");
    leads_to(rt, alloc, &mut shelf, "3 script a: too long");
    is(rt, shelf.script_reads, 0);
}

#[test]
fn a_script_too_long_is_not_read(rt: HostRuntime) {
    asks_for_no_script(&rt, rt.alloc());
}
